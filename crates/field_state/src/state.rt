//! The state of the field, but for the room that a call needs.
use crate::places::Places;
use due_queue::DueQueue;
use evidence::Evidence;
use grid_model::Stamp;
use std::marker::Model;
use subtree_costs::CostForest;

/// The state of a network after events: the clock and how many events were applied, the least costs
/// of its parts by the states and marks of the devices and the weights of the reports at each node,
/// what is kept of the reports of each meter, when each of all this changes next by the passing of
/// time alone, and where the last applied event changed it.
#[derive(Drop)]
pub(crate) struct State {
    pub(crate) clock: Stamp,
    pub(crate) applied: u64,
    pub(crate) costs: CostForest,
    pub(crate) evidence: Evidence,
    // A meter's key is its number; the devices' keys follow.
    pub(crate) due: DueQueue,
    pub(crate) places: Places,
}

impl Model for State {
    ghost use Rattle.field_state.specs.Fielded.{Fielded};

    ghost Value = { Fielded };

    ghost use Rattle.field_state.specs.StateInside.{fielded_of, HasPlacesInside};

    ghost view = { fielded_of };

    ghost invariant = { HasPlacesInside };
}
