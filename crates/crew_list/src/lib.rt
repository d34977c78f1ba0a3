//! The order in which crews take outages.
#![tactic(auto)]

ghost use Rattle.std.specs.Prelude.{◌≡◌, ◌<◌, length, map, IfOk};
ghost use Rattle.std.specs.List.{All};
ghost use Rattle.history_rules.specs.Crew.{CanBeOrdered, crew_order};
ghost use Rattle.crew_list.specs.Listed.{outage_at};

mod chains;
mod groups;
mod ranks;

use chains::whole_reaches;
use grid_model::Outage;
use groups::groups_of;
use ranks::{all_ranks, places};
use std::alloc::{AllocError, Global};

/// The places of the outages in the order in which crews take them. All outages with the same
/// topmost device are a group. Groups stand by the sum of their customers falling, then by their
/// earliest second with none last, then by their topmost device; inside a group outages stand by the
/// count of outages above them, then by device. An error says that memory ran out.
pub fn order(alloc: Global, outages: &[Outage]) -> Result<Vec<u32>, AllocError>
    requires { CanBeOrdered outages.now }
    ensures within { IfOk result (λ places. All (λ k. k < length outages.now) places.items) }
    ensures order { IfOk result (λ places. map (outage_at outages.now) places.items ≡ crew_order outages.now) }
{
    let reaches = whole_reaches(alloc, outages)?;
    let groups = groups_of(alloc, outages, &reaches)?;
    let mut ranks = all_ranks(alloc, outages, &reaches, &groups)?;
    ranks.sort()?;
    places(alloc, &ranks)
}
