//! What outages are ordered by.
ghost use Rattle.std.specs.Prelude.{◌≡◌, ◌<◌, ◌^◌, length, map, IfOk, All};
ghost use Rattle.history_rules.specs.Crew.{CanBeOrdered};
ghost use Rattle.crew_list.specs.Chains.{IsReached};
ghost use Rattle.crew_list.specs.Groups.{IsGrouped};
ghost use Rattle.crew_list.specs.Ranks.{rank_of, ranks_of};

use crate::chains::Reach;
use crate::groups::Group;
use grid_model::{DeviceId, Outage};
use std::alloc::{AllocError, Global};
use std::cmp::Reverse;

/// What an outage is ordered by, the first field first, and its place.
#[derive(Clone, Copy, PartialEq, Eq, PartialOrd, Ord)]
pub(crate) struct Rank {
    // The customers of its group, most first.
    pub(crate) customers: Reverse<u64>,
    // Whether its group has no second, and the earliest one.
    pub(crate) without_second: u8,
    pub(crate) second: u64,
    // The topmost device.
    pub(crate) top: u32,
    // How many outages are above it.
    pub(crate) above: u64,
    pub(crate) device: u32,
    pub(crate) place: usize,
}

// The number of a device, which fits.
fn number(device: DeviceId) -> u32
    ensures value { result ≡ device.0 }
    ensures fits { result < 2 ^ 32 }
{
    device.0
}

// The rank of one outage.
fn rank_at(outages: &[Outage], reaches: &[Reach], groups: &[Group], place: usize) -> Rank
    requires place { place < length outages.now }
    requires reached { IsReached outages.now (length outages.now) reaches.now }
    requires grouped { IsGrouped outages.now outages.now groups.now }
    ensures rank { result ≡ rank_of outages.now place }
    ensures fits { result.device < 2 ^ 32 }
{
    let reach = reaches[place];
    let group = groups[reach.place];
    Rank {
        customers: Reverse(group.customers),
        without_second: u8::from(group.since.is_none()),
        second: group.since.unwrap_or(0),
        top: outages[reach.place].device.0,
        above: reach.above,
        device: number(outages[place].device),
        place,
    }
}

/// The rank of each outage.
pub(crate) fn all_ranks(
    alloc: Global,
    outages: &[Outage],
    reaches: &[Reach],
    groups: &[Group],
) -> Result<Vec<Rank>, AllocError>
    requires reached { IsReached outages.now (length outages.now) reaches.now }
    requires grouped { IsGrouped outages.now outages.now groups.now }
    ensures ranks { IfOk result (λ v. v.items ≡ ranks_of outages.now (length outages.now)) }
    ensures fits { IfOk result (λ v. All (λ r. r.device < 2 ^ 32) v.items) }
{
    let mut ranks = Vec::new(alloc);
    for place in 0..outages.len() {
        ranks.push(rank_at(outages, reaches, groups, place))?;
    }
    Ok(ranks)
}

/// The places of ranks.
pub(crate) fn places(alloc: Global, ranks: &[Rank]) -> Result<Vec<u32>, AllocError>
    requires { All (λ r. r.place < 2 ^ 32) ranks.now }
    ensures { IfOk result (λ v. v.items ≡ map (λ r. r.place) ranks.now) }
{
    let mut places = Vec::new(alloc);
    for rank in ranks {
        places.push(rank.place as u32)?;
    }
    Ok(places)
}
