//! The customers and the customer seconds of the lines that count.
ghost use Rattle.std.specs.Prelude.{◌≡◌, ◌<◌, ◌≤◌, ◌+◌, ◌*◌, ◌^◌, ◌&&◌, [], ◌∷◌, length};
ghost use Rattle.std.specs.List.{All};
ghost use Rattle.history_rules.specs.Indices as indices;
ghost use Rattle.history_rules.specs.Indices.{end_or, is_sustained, customers_interrupted, customer_seconds};
ghost use Rattle.indices_1366.specs.Countable.{CanBeCounted, most_lines};
ghost use Rattle.history_rules.specs.StampTexts.{last_second};

use grid_model::{Grid, Line, Period, Stamp};

/// The customers of some lines, and the sum of each line's seconds times its customers.
#[derive(Clone, Copy)]
pub(crate) struct Sums {
    pub(crate) customers: u128,
    pub(crate) customer_seconds: u128,
}

// Whether a line begins in a period.
fn begins_in(period: Period, line: Line) -> bool
    ensures { result ≡ indices.begins_in period line }
{
    let is_before_end = match period.until {
        None => true,
        Some(until) => line.start.0 < until.0,
    };
    period.from.0 <= line.start.0 && is_before_end
}

// The seconds of a line, of which an open one ends now.
fn seconds_of(line: Line, now: Stamp) -> u64
    requires { line.start.0 ≤ end_or now.0 line.end }
    ensures { result ≡ indices.seconds_of now.0 line }
{
    line.end.unwrap_or(now).0 - line.start.0
}

// Whether a line counts: it begins in the period, and is longer than five minutes.
fn is_counted(line: Line, now: Stamp, period: Period) -> bool
    requires { line.start.0 ≤ end_or now.0 line.end }
    ensures { result ≡ (indices.begins_in period line && is_sustained now.0 line) }
{
    begins_in(period, line) && seconds_of(line, now) > 300
}

impl Sums {
    // With a line more, where it counts.
    fn with(self, grid: &Grid, line: Line, now: Stamp, period: Period) -> Sums
        requires second { now.0 ≤ last_second }
        requires line { CanBeCounted grid.now now.0 line }
        requires room { self.customers < 2 ^ 100 }
        requires seconds_room { self.customer_seconds < 2 ^ 120 }
        ensures customers { result.customers ≡ self.customers + customers_interrupted grid.now period now.0 (line ∷ []) }
        ensures customer_seconds { result.customer_seconds ≡ self.customer_seconds + customer_seconds grid.now period now.0 (line ∷ []) }
        ensures few { result.customers ≤ self.customers + 2 ^ 32 }
        ensures few_seconds { result.customer_seconds ≤ self.customer_seconds + 2 ^ 32 * last_second }
    {
        if !is_counted(line, now, period) {
            return self;
        }
        let customers = u128::from(grid.meter(line.meter).customers);
        let seconds = u128::from(seconds_of(line, now));
        Sums {
            customers: self.customers + customers,
            customer_seconds: self.customer_seconds + customers * seconds,
        }
    }
}

/// The sums of a period over lines, where an open one ends now.
pub(crate) fn sums_of(grid: &Grid, lines: &[Line], now: Stamp, period: Period) -> Sums
    requires second { now.0 ≤ last_second }
    requires lines { All (CanBeCounted grid.now now.0) lines.now }
    requires count { length lines.now ≤ most_lines }
    ensures customers { result.customers ≡ customers_interrupted grid.now period now.0 lines.now }
    ensures customer_seconds { result.customer_seconds ≡ customer_seconds grid.now period now.0 lines.now }
    ensures few { result.customers < 2 ^ 80 }
{
    let mut sums = Sums {
        customers: 0,
        customer_seconds: 0,
    };
    for line in lines {
        sums = sums.with(grid, *line, now, period);
    }
    sums
}
