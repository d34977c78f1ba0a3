//! Where following `above` leads from each outage.
ghost use Rattle.std.specs.Prelude.{◌≡◌, ◌<◌, ◌^◌, ◌+◌, ℕ, Some, length, map, IfOk, All};
ghost use Rattle.std.specs.BTreeMap.{get};
ghost use Rattle.std.specs.Ordering.{nat_cmp};
ghost use Rattle.history_rules.specs.Crew.{CanBeOrdered};
ghost use Rattle.crew_list.specs.Chains.{device_at, reach_at, step_by, further, IsReached};

use grid_model::Outage;
use std::alloc::{AllocError, Global};
use std::collections::BTreeMap;

/// The outage that some steps upwards lead to, by its place, and how many of them there are.
#[derive(Clone, Copy)]
pub(crate) struct Reach {
    pub(crate) place: usize,
    pub(crate) above: u64,
}

// The place of each device.
fn places_of(alloc: Global, outages: &[Outage]) -> Result<BTreeMap<u32, usize>, AllocError>
    requires { CanBeOrdered outages.now }
    ensures { IfOk result (λ places. (k : ℕ) → k < length outages.now → get nat_cmp places (device_at outages.now k) ≡ Some k) }
{
    let mut places = BTreeMap::new(alloc);
    for (place, outage) in outages.iter().enumerate() {
        places.insert(outage.device.0, place)?;
    }
    Ok(places)
}

// One step from an outage.
fn step(places: &BTreeMap<u32, usize>, outage: &Outage, own: usize) -> Reach
    ensures { result ≡ step_by (get nat_cmp places.now) own outage.now.above }
{
    match outage.above {
        None => Reach {
            place: own,
            above: 0,
        },
        Some(above) => Reach {
            place: places.get(&above.0).copied().unwrap_or(own),
            above: 1,
        },
    }
}

// One step from each outage.
fn first_reaches(alloc: Global, outages: &[Outage]) -> Result<Vec<Reach>, AllocError>
    requires { CanBeOrdered outages.now }
    ensures { IfOk result (λ reaches. IsReached outages.now 1 reaches.items) }
{
    let places = places_of(alloc, outages)?;
    let mut reaches = Vec::new(alloc);
    for (place, outage) in outages.iter().enumerate() {
        reaches.push(step(&places, outage, place))?;
    }
    Ok(reaches)
}

// Twice as many steps from each outage.
fn doubled(alloc: Global, reaches: &[Reach]) -> Result<Vec<Reach>, AllocError>
    requires within { All (λ r. r.place < length reaches.now) reaches.now }
    requires few { All (λ r. r.above < 2 ^ 63) reaches.now }
    ensures { IfOk result (λ v. v.items ≡ map (further reaches.now) reaches.now) }
{
    let mut far = Vec::new(alloc);
    for reach in reaches {
        let next = reaches[reach.place];
        far.push(Reach {
            place: next.place,
            above: reach.above + next.above,
        })?;
    }
    Ok(far)
}

/// As many steps from each outage as there are outages, which lead to the topmost one.
pub(crate) fn whole_reaches(alloc: Global, outages: &[Outage]) -> Result<Vec<Reach>, AllocError>
    requires { CanBeOrdered outages.now }
    ensures { IfOk result (λ reaches. IsReached outages.now (length outages.now) reaches.items) }
{
    let mut reaches = first_reaches(alloc, outages)?;
    let mut steps = 1;
    'doubling: while steps < outages.len() {
        reaches = doubled(alloc, &reaches)?;
        steps *= 2;
    }
    Ok(reaches)
}
