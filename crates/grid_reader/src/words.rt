//! The words of a network text, and the numbers that stand beside them.
ghost use Rattle.std.specs.Prelude.{◌≡◌};
ghost use Rattle.event_rules.specs.Decimals.{decimal_within};
ghost use Rattle.grid_reader.specs.Words as words;

use fault_weights::{default_weight, weight_of_rate};
use grid_model::{Kind, Setting};
use line_text::read_decimal;
use word_tables::{kind_words, setting_words, variant_at};

/// The kind of a word.
pub(crate) fn kind_named(word: &[u8]) -> Option<Kind>
    ensures { result ≡ words.kind_named word.now }
{
    let Some(place) = kind_words().find(word) else {
        return None;
    };
    variant_at!(
        place;
        Kind::Fuse,
        Kind::Transformer,
        Kind::Recloser,
        Kind::Breaker,
        Kind::Line,
        Kind::Switch,
        Kind::Tie,
    )
}

/// The setting of a word.
pub(crate) fn setting_named(word: &[u8]) -> Option<Setting>
    ensures { result ≡ words.setting_named word.now }
{
    let Some(place) = setting_words().find(word) else {
        return None;
    };
    variant_at!(
        place;
        Setting::Call,
        Setting::Gasp,
        Setting::PingDown,
        Setting::PingUp,
        Setting::Powerup,
        Setting::LiveHold,
        Setting::Grace,
        Setting::OkHold,
    )
}

/// Whether a device of this state is closed.
pub(crate) fn state_named(word: &[u8]) -> Option<bool>
    ensures { result ≡ words.state_named word.now }
{
    match word {
        b"closed" => Some(true),
        b"open" => Some(false),
        _ => None,
    }
}

// The most that a weight, a number of customers or a failure rate may be.
const MOST_AMOUNT: u64 = 1_000_000;

// The most seconds that a setting may be.
const MOST_HOLD: u64 = 10_000_000;

/// A weight, a number of customers or a failure rate: from 1 to 1,000,000.
pub(crate) fn read_amount(text: &[u8]) -> Option<u32>
    ensures { result ≡ decimal_within 1 1000000 text.now }
{
    let amount = read_decimal(text, MOST_AMOUNT)?;
    (amount >= 1).then_some(amount as u32)
}

// A weight, or after an `r` a failure rate.
fn weight_or_rate(text: &[u8]) -> Option<u32>
    ensures { result ≡ words.weight_or_rate text.now }
{
    match text {
        [b'r', rate @ ..] => Some(weight_of_rate(read_amount(rate)?)),
        _ => read_amount(text),
    }
}

/// The weight of a device of this kind: `-` is the weight of the kind.
pub(crate) fn weight_of(kind: Kind, text: &[u8]) -> Option<u32>
    ensures { result ≡ words.weight_of kind text.now }
{
    if text == b"-".as_slice() {
        return Some(default_weight(kind));
    }
    weight_or_rate(text)
}

/// The value of a setting: the weight of a report, or seconds.
pub(crate) fn value_of(setting: Setting, text: &[u8]) -> Option<u64>
    ensures { result ≡ words.value_of setting text.now }
{
    match setting {
        Setting::LiveHold | Setting::Grace | Setting::OkHold => read_decimal(text, MOST_HOLD),
        _ => read_amount(text).map(u64::from),
    }
}
