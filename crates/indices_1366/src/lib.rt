//! The reliability indices of a period: SAIFI, SAIDI and CAIDI, in a profile after IEEE Std
//! 1366-2012.
#![tactic(auto)]

ghost use Rattle.std.specs.Prelude.{◌≡◌, ◌≤◌, ◌*◌, ◌^◌, length};
ghost use Rattle.std.specs.List.{All};
ghost use Rattle.event_rules.specs.Fractions.{quotient};
ghost use Rattle.history_rules.specs.Indices as indices;
ghost use Rattle.indices_1366.specs.Countable.{CanBeCounted, most_lines};
ghost use Rattle.history_rules.specs.StampTexts.{last_second};

mod sums;

use crate::sums::sums_of;
pub use grid_model::Period;
use grid_model::{Grid, Line, Stamp};
use line_text::Fraction;

/// The three indices of a period. An index has no value where its divisor is 0.
#[derive(Clone, Copy, Debug, PartialEq, Eq)]
pub struct Indices {
    /// Customers interrupted by customers served.
    pub saifi: Option<Fraction>,
    /// Customer minutes of interruption by customers served.
    pub saidi: Option<Fraction>,
    /// Customer minutes of interruption by customers interrupted, in minutes.
    pub caidi: Option<Fraction>,
}

// A quotient in lowest terms; over 0 it has no value.
fn quotient_of(top: u128, under: u128) -> Option<Fraction>
    requires { under ≤ 10 ^ 30 }
    ensures { result ≡ quotient top under }
{
    if under == 0 {
        None
    } else {
        Some(Fraction::new(top, under))
    }
}

/// The indices of a period over interruptions, where an open one ends now. Only those count that
/// begin in the period, whose end isn't part of it, and that are longer than 300 seconds.
pub fn totals(grid: &Grid, lines: &[Line], now: Stamp, period: Period) -> Indices
    requires second { now.0 ≤ last_second }
    requires lines { All (CanBeCounted grid.now now.0) lines.now }
    requires count { length lines.now ≤ most_lines }
    ensures saifi { result.saifi ≡ indices.saifi grid.now period now.0 lines.now }
    ensures saidi { result.saidi ≡ indices.saidi grid.now period now.0 lines.now }
    ensures caidi { result.caidi ≡ indices.caidi grid.now period now.0 lines.now }
{
    let sums = sums_of(grid, lines, now, period);
    let served = u128::from(grid.customers());
    Indices {
        saifi: quotient_of(sums.customers, served),
        saidi: quotient_of(sums.customer_seconds, 60 * served),
        caidi: quotient_of(sums.customer_seconds, 60 * sums.customers),
    }
}
