//! What the outages below each topmost one come to.
ghost use Rattle.std.specs.Prelude.{◌≡◌, ◌<◌, ◌^◌, ◌+◌, ℕ, length, IfOk};
ghost use Rattle.history_rules.specs.Crew.{CanBeOrdered};
ghost use Rattle.crew_list.specs.Chains.{IsReached};
ghost use Rattle.crew_list.specs.Groups.{group_with, IsGrouped};

use crate::chains::Reach;
use grid_model::Outage;
use std::alloc::{AllocError, Global};

/// The customers of outages, and their earliest second.
#[derive(Clone, Copy)]
pub(crate) struct Group {
    pub(crate) customers: u64,
    pub(crate) since: Option<u64>,
}

// A group with one more outage.
fn with(group: Group, outage: &Outage) -> Group
    requires { group.customers + outage.now.customers < 2 ^ 64 }
    ensures { result ≡ group_with group outage.now }
{
    let since = match (group.since, outage.since) {
        (None, None) => None,
        (None, Some(stamp)) => Some(stamp.0),
        (Some(second), None) => Some(second),
        (Some(second), Some(stamp)) => Some(second.min(stamp.0)),
    };
    Group {
        customers: group.customers + outage.customers,
        since,
    }
}

/// The group of each topmost outage, by its place.
pub(crate) fn groups_of(
    alloc: Global,
    outages: &[Outage],
    reaches: &[Reach],
) -> Result<Vec<Group>, AllocError>
    requires ordered { CanBeOrdered outages.now }
    requires reached { IsReached outages.now (length outages.now) reaches.now }
    ensures { IfOk result (λ groups. IsGrouped outages.now outages.now groups.items) }
{
    let nothing = Group {
        customers: 0,
        since: None,
    };
    let mut groups = vec![in alloc; nothing; outages.len()]?;
    for (place, outage) in outages.iter().enumerate() {
        let top = reaches[place].place;
        groups[top] = with(groups[top], outage);
    }
    Ok(groups)
}
