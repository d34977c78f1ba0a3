//! What a line reports, by the text that names its meter or its device.
ghost use Rattle.std.specs.Prelude.{◌≡◌};
ghost use Rattle.event_rules.specs.EventLines as lines;
ghost use Rattle.event_reader.specs.Reports.{shape_result};

use crate::words::{EventWord, event_word, finding, is_answered};
use event_rules::ReadRule;
use grid_model::{Confirmed, Want};

/// What a line reports, with the text that names the meter or the device.
#[derive(Clone, Copy)]
pub(crate) enum Report<'a> {
    Call {
        meter: &'a [u8],
    },
    Gasp {
        meter: &'a [u8],
    },
    Ping {
        meter: &'a [u8],
        is_answered: bool,
    },
    Powerup {
        meter: &'a [u8],
    },
    Confirm {
        device: &'a [u8],
        finding: Confirmed,
    },
    Restore {
        device: &'a [u8],
    },
    Order {
        device: &'a [u8],
        want: Want,
    },
    Clock,
}

/// The report of a line with two fields.
pub(crate) fn lone_report(word: &[u8]) -> Result<Report<'static>, ReadRule>
    ensures { shape_result result ≡ lines.lone_shape word.now }
{
    let Some(word) = event_word(word) else {
        return Err(ReadRule::BadWord);
    };
    match word {
        EventWord::Clock => Ok(Report::Clock),
        _ => Err(ReadRule::BadFields),
    }
}

/// The report of a line with three fields.
pub(crate) fn named_report<'a>(word: &[u8], name: &'a [u8]) -> Result<Report<'a>, ReadRule>
    ensures { shape_result result ≡ lines.named_shape word.now name.now }
{
    let Some(word) = event_word(word) else {
        return Err(ReadRule::BadWord);
    };
    match word {
        EventWord::Call => Ok(Report::Call { meter: name }),
        EventWord::Gasp => Ok(Report::Gasp { meter: name }),
        EventWord::Powerup => Ok(Report::Powerup { meter: name }),
        EventWord::Restore => Ok(Report::Restore { device: name }),
        EventWord::Open => Ok(Report::Order {
            device: name,
            want: Want::Opened,
        }),
        EventWord::Close => Ok(Report::Order {
            device: name,
            want: Want::Closed,
        }),
        _ => Err(ReadRule::BadFields),
    }
}

fn ping_report<'a>(meter: &'a [u8], answer: &[u8]) -> Result<Report<'a>, ReadRule>
    ensures { shape_result result ≡ lines.ping_shape meter.now answer.now }
{
    let is_answered = is_answered(answer).ok_or(ReadRule::BadWord)?;
    Ok(Report::Ping { meter, is_answered })
}

fn confirm_report<'a>(device: &'a [u8], word: &[u8]) -> Result<Report<'a>, ReadRule>
    ensures { shape_result result ≡ lines.confirm_shape device.now word.now }
{
    let finding = finding(word).ok_or(ReadRule::BadWord)?;
    Ok(Report::Confirm { device, finding })
}

/// The report of a line with four fields.
pub(crate) fn detailed_report<'a>(
    word: &[u8],
    name: &'a [u8],
    detail: &[u8],
) -> Result<Report<'a>, ReadRule>
    ensures { shape_result result ≡ lines.detailed_shape word.now name.now detail.now }
{
    let Some(word) = event_word(word) else {
        return Err(ReadRule::BadWord);
    };
    match word {
        EventWord::Ping => ping_report(name, detail),
        EventWord::Confirm => confirm_report(name, detail),
        _ => Err(ReadRule::BadFields),
    }
}
