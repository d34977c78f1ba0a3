//! What it costs to take a device for opened, by its kind or by how often it fails.
#![tactic(auto)]

ghost use Rattle.std.specs.Prelude.{◌≡◌, ◌≤◌, ◌*◌, ℕ};
ghost use Rattle.fault_weights.specs.Kinds as kinds;
ghost use Rattle.fault_weights.specs.Rates.{IsLeastDoubling, rate_weight};
ghost use Rattle.fault_weights.specs.Laws.{RateWeightIsLeast, OneLeastDoubling, RateWeightIsBounded};

use grid_model::Kind;

/// The hours over which the failures of a rate are counted.
const RATE_HOURS: u64 = 1_000_000_000;

/// The weight of a device of this kind, where its row gives no weight of its own.
pub fn default_weight(kind: Kind) -> u32
    ensures { result ≡ kinds.default_weight kind }
{
    match kind {
        Kind::Fuse => 40,
        Kind::Transformer => 50,
        Kind::Recloser => 90,
        Kind::Breaker => 120,
        Kind::Line => 150,
        Kind::Switch | Kind::Tie => 200,
    }
}

/// The weight of a device that fails so often in 10^9 hours: 10 for each time that the rate has to
/// be doubled until it makes at least one failure an hour. So a device that fails half as often
/// weighs 10 more.
pub fn weight_of_rate(rate: u32) -> u32
    requires some { 1 ≤ rate }
    requires most { rate ≤ 1000000 }
    ensures doublings { (k : ℕ) × IsLeastDoubling rate k × (result ≡ 10 * k) }
    ensures weight { result ≡ rate_weight rate }
    ensures least { 100 ≤ result }
    ensures most { result ≤ 300 }
{
    let mut failures = u64::from(rate);
    let mut doublings = 0;
    while failures < RATE_HOURS {
        failures *= 2;
        doublings += 1;
    }
    10 * doublings
}

/// The weight of a rate is 10 times the least number of doublings.
pub fn rate_weight_is_least()
    ensures { RateWeightIsLeast }
{}

/// There is no other least number of doublings.
pub fn one_least_doubling()
    ensures { OneLeastDoubling }
{}

/// Rates from 1 to 1,000,000 weigh from 100 to 300.
pub fn rate_weight_is_bounded()
    ensures { RateWeightIsBounded }
{}
