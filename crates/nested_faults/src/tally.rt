//! What is told of the meters of each outage.
ghost use Rattle.std.specs.Prelude.{◌≡◌, ◌<◌, ◌+◌, ◌^◌, ◌||◌, ℕ, length, option_map, vec_len, IfSome, IfOk};
ghost use Rattle.history_rules.specs.Evidence.{earliest};
ghost use Rattle.grid_model.specs.Sound.{IsSoundParts};
ghost use Rattle.evidence.specs.Kept.{IsEvidenceOf};
ghost use Rattle.nested_faults.specs.LastCuts.{noted_at};
ghost use Rattle.nested_faults.specs.Tallies.{no_tally, AreTallies};

use evidence::Evidence;
use grid_model::{DeviceId, Grid, MeterId, Stamp};
use std::alloc::{AllocError, Global};

/// What is told of some meters: how many they are, how many customers they serve, the earliest
/// time of a dark report that counts, and whether a dark signal came back after a restoration.
#[derive(Clone, Copy)]
pub(crate) struct Tally {
    pub(crate) meters: u32,
    pub(crate) customers: u64,
    pub(crate) since: Option<Stamp>,
    pub(crate) nested: bool,
}

// The earlier of two times, where there are any.
fn earlier(first: Option<Stamp>, second: Option<Stamp>) -> Option<Stamp>
    ensures { option_map (λ t. t.0) result ≡ earliest (option_map (λ t. t.0) first) (option_map (λ t. t.0) second) }
{
    match first {
        None => second,
        Some(first) => match second {
            None => Some(first),
            Some(second) => Some(Stamp(first.0.min(second.0))),
        },
    }
}

impl Tally {
    /// Of no meters.
    pub(crate) fn new() -> Tally
        ensures { result ≡ no_tally }
    {
        Tally {
            meters: 0,
            customers: 0,
            since: None,
            nested: false,
        }
    }

    // Of one meter more.
    fn with(self, customers: u32, since: Option<Stamp>, came_back: bool) -> Tally
        requires meters { self.meters + 1 < 2 ^ 32 }
        requires customers { self.customers + customers < 2 ^ 64 }
        ensures meters { result.meters ≡ self.meters + 1 }
        ensures customers { result.customers ≡ self.customers + customers }
        ensures since { option_map (λ t. t.0) result.since ≡ earliest (option_map (λ t. t.0) self.since) (option_map (λ t. t.0) since) }
        ensures nested { result.nested ≡ (self.nested || came_back) }
    {
        Tally {
            meters: self.meters + 1,
            customers: self.customers + u64::from(customers),
            since: earlier(self.since, since),
            nested: self.nested || came_back,
        }
    }
}

// Counts a meter for the device that is noted of its node.
fn count_meter(
    grid: &Grid,
    evidence: &Evidence,
    last: &[Option<DeviceId>],
    tallies: &mut [Tally],
    m: MeterId,
)
    requires sound { IsSoundParts grid.now }
    requires evidence { IsEvidenceOf grid.now evidence.now }
    requires each { length last.now ≡ length grid.now.nodes }
    requires within { (n : ℕ) → IfSome (noted_at last.now n) (λ d. d.0 < length tallies.old) }
    requires meter { m.0 < length grid.now.meters }
    requires before { AreTallies grid.now evidence.now last.now m.0 tallies.old }
    ensures each { length tallies.new ≡ length tallies.old }
    ensures counted { AreTallies grid.now evidence.now last.now (m.0 + 1) tallies.new }
{
    let meter = grid.meter(m);
    if let Some(d) = last[meter.node.0 as usize] {
        let tally = tallies[d.0 as usize];
        tallies[d.0 as usize] = tally.with(
            meter.customers,
            evidence.since(m),
            evidence.came_back(m),
        );
    }
}

// Counts each meter for the device that is noted of its node.
fn tally_meters(grid: &Grid, evidence: &Evidence, last: &[Option<DeviceId>], tallies: &mut [Tally])
    requires sound { IsSoundParts grid.now }
    requires evidence { IsEvidenceOf grid.now evidence.now }
    requires each { length last.now ≡ length grid.now.nodes }
    requires within { (n : ℕ) → IfSome (noted_at last.now n) (λ d. d.0 < length tallies.old) }
    requires none { AreTallies grid.now evidence.now last.now 0 tallies.old }
    ensures each { length tallies.new ≡ length tallies.old }
    ensures counted { AreTallies grid.now evidence.now last.now (length grid.now.meters) tallies.new }
{
    for m in 0..grid.meters() {
        count_meter(grid, evidence, last, tallies, MeterId(m));
    }
}

/// By device, what is told of the meters of which it is noted. An error says that memory ran out.
pub(crate) fn tallies(
    alloc: Global,
    grid: &Grid,
    evidence: &Evidence,
    last: &[Option<DeviceId>],
) -> Result<Vec<Tally>, AllocError>
    requires evidence { IsEvidenceOf grid.now evidence.now }
    requires each { length last.now ≡ length grid.now.nodes }
    requires within { (n : ℕ) → IfSome (noted_at last.now n) (λ d. d.0 < length grid.now.devices) }
    ensures each { IfOk result (λ tallies. vec_len tallies ≡ length grid.now.devices) }
    ensures counted { IfOk result (λ tallies. AreTallies grid.now evidence.now last.now (length grid.now.meters) tallies.items) }
{
    let mut tallies = vec![in alloc; Tally::new(); grid.devices() as usize]?;
    tally_meters(grid, evidence, last, &mut tallies);
    Ok(tallies)
}
