//! The wish that texts of options give, and the number that a place gives.
ghost use Rattle.std.specs.Prelude.{◌≡◌, Some, option_map, not};
ghost use Rattle.std.specs.Option.{option_copied};
ghost use Rattle.event_rules.specs.Decimals.{decimal_within};
ghost use Rattle.command_words.specs.Forms.{follow_wish, wish_by, wish_with, runs_on};
ghost use Rattle.command_words.specs.Given.{second_in};

use crate::words::Wish;
use grid_model::{Period, Stamp};
use line_text::{read_decimal, read_stamp};

// The second that the text of an option names; none, of a text that is no stamp.
fn read_second(text: Option<&str>) -> Option<Option<Stamp>>
    ensures { option_map (option_map (λ at. at.0)) result ≡ second_in (option_copied text.entry) }
{
    match text {
        None => Some(None),
        Some(text) => match read_stamp(text.as_bytes()) {
            Some(at) => Some(Some(at)),
            None => None,
        },
    }
}

fn runs_backwards(from: Option<Stamp>, until: Option<Stamp>) -> bool
    ensures { result ≡ not (runs_on (option_map (λ at. at.0) from) (option_map (λ at. at.0) until)) }
{
    match (from, until) {
        (Some(from), Some(until)) => until.0 <= from.0,
        _ => false,
    }
}

fn wish_between(with_bounds: bool, from: Option<Stamp>, until: Option<Stamp>) -> Option<Wish>
    ensures { result ≡ wish_with with_bounds (option_map (λ at. at.0) from) (option_map (λ at. at.0) until) }
{
    if runs_backwards(from, until) {
        return None;
    }
    let from = from.unwrap_or(Stamp(0));
    Some(Wish {
        with_bounds,
        period: Period { from, until },
        at_once: false,
    })
}

/// The wish of a replay, by whether the bounds are asked for and by the texts of `--from` and
/// `--to`; none where one of these is no stamp, or the period ends before it begins.
pub(crate) fn read_wish(with_bounds: bool, from: Option<&str>, until: Option<&str>) -> Option<Wish>
    ensures { result ≡ wish_by (Some with_bounds) (second_in (option_copied from.entry)) (second_in (option_copied until.entry)) }
{
    let from = read_second(from)?;
    let until = read_second(until)?;
    wish_between(with_bounds, from, until)
}

/// The wish of events that are followed: no bounds, the indices of all seconds, and the entries of
/// each line at once.
pub(crate) fn follow_wish() -> Wish
    ensures { result ≡ follow_wish }
{
    Wish {
        with_bounds: false,
        period: Period {
            from: Stamp(0),
            until: None,
        },
        at_once: true,
    }
}

// The most feeders that a trial is over.
const MOST_FEEDERS: u64 = 100;

/// The number of feeders that a text writes, from 1 to 100.
pub(crate) fn read_feeders(text: &str) -> Option<u32>
    ensures { result ≡ decimal_within 1 100 text.entry.now }
{
    let feeders = read_decimal(text.as_bytes(), MOST_FEEDERS)?;
    (feeders >= 1).then_some(feeders as u32)
}
