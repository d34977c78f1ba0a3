//! The state of the field, and what is read of it.
use crate::state::State;
use evidence::{Evidence, Pull};
use grid_model::{DeviceId, Grid, Mark, MeterId, NodeId, Stamp};
use std::marker::Model;
use std::sync::ledger::Ledger;
use subtree_costs::{CostForest, Steps};

/// The state of a network after events: the clock and how many events were applied, the least costs
/// of its parts by the states and marks of the devices and the weights of the reports at each node,
/// what is kept of the reports of each meter, when each of all this changes next by the passing of
/// time alone, and where the last applied event changed it.
#[derive(Drop)]
pub struct Field {
    pub(crate) state: State,
    // Room for the nodes below a restored device: one entry a node.
    pub(crate) below: Vec<NodeId>,
}

impl Model for Field {
    ghost use Rattle.field_state.specs.Fielded.{Fielded};

    ghost Value = { Fielded };

    ghost use Rattle.field_state.specs.FieldInside.{state_of, HasRoomInside};

    ghost view = { state_of };

    ghost invariant = { HasRoomInside };
}

impl Field {
    ghost use Rattle.std.specs.Prelude.{◌≡◌, ◌<◌, ◌≤◌, ◌+◌, ◌*◌, ℕ, List, Some, length, true, false, slice_index_or};
    ghost use Rattle.grid_model.specs.Parts.{Parts};
    ghost use Rattle.grid_model.specs.Problem.{mark_at};
    ghost use Rattle.grid_model.specs.declared.history.Event.{Event};
    ghost use Rattle.grid_model.specs.declared.history.Mark.TheVariants.{Nothing};
    ghost use Rattle.history_rules.specs.Posed.{problem_after};
    ghost use Rattle.radial_forest.specs.Traversed.{parent_in};
    ghost use Rattle.radial_forest.specs.Spreading.{switched};
    ghost use Rattle.subtree_costs.specs.Reach.{IsReach};
    ghost use Rattle.field_state.specs.Fielded.{IsField, IsFieldAfter, pull_after};
    ghost use Rattle.field_state.specs.Without.{IsLeastWithout};

    /// The time of the last event, and 0 before the first.
    pub fn now(&self) -> Stamp
        ensures { result.0 ≡ self.now.now }
    {
        self.state.clock
    }

    /// How many events were applied.
    pub fn applied(&self) -> u64
        ensures { result ≡ self.now.applied }
    {
        self.state.applied
    }

    /// Whether a device is closed.
    pub fn is_closed(&self, d: DeviceId) -> bool
        requires { d.0 < length self.now.forest.closed }
        ensures { result ≡ slice_index_or self.now.forest.closed d.0 false }
    {
        self.state.costs.forest().is_closed(d)
    }

    /// The mark of a device.
    pub fn mark(&self, d: DeviceId) -> Mark
        requires { d.0 < length self.now.marks }
        ensures { result ≡ mark_at self.now.marks d.0 }
    {
        self.state.costs.mark(d)
    }

    /// What the reports of a meter weigh now.
    pub fn pull(&self, m: MeterId) -> Pull
        requires { m.0 < length self.now.evidence.meters }
        ensures { (g : Parts) (h : List Event) → IsFieldAfter g h self.now → result ≡ pull_after g h m.0 }
    {
        self.state.evidence.pull(m)
    }

    /// The least costs of the parts of the network, with its states, its marks, and the weights of
    /// the reports at its nodes.
    pub fn costs(&self) -> &CostForest
        ensures { result.now ≡ self.now.costs }
    {
        &self.state.costs
    }

    /// The nodes where the last applied event, if it was no switching, changed the weights of reports,
    /// and the lower ends of the closed devices whose marks it changed, each once. Nothing is said of
    /// it after a switching.
    pub fn places(&self) -> &[NodeId]
        ensures { result.now ≡ self.now.places }
    {
        self.state.places.all()
    }

    /// What is kept of the reports.
    pub fn evidence(&self) -> &Evidence
        ensures { result.now ≡ self.now.evidence }
    {
        &self.state.evidence
    }

    /// The least cost over the feasible sets that leave out a closed device without a mark. Takes no
    /// memory, and leaves all as it was.
    pub fn least_without<L: Ledger>(
        &mut self,
        grid: &Grid,
        d: DeviceId,
        steps: &mut Steps<L>,
    ) -> u64
        requires field { IsField grid.now self.old }
        requires device { d.0 < length grid.now.devices }
        requires closed { slice_index_or self.old.forest.closed d.0 false ≡ true }
        requires unmarked { mark_at self.old.marks d.0 ≡ Nothing }
        ensures same { self.new ≡ self.old }
        ensures least { (h : List Event) → IsFieldAfter grid.now h self.old
            → IsLeastWithout (problem_after grid.now h) d.0 result }
        ensures steps { (n r : ℕ) → n < length grid.now.nodes
            → parent_in self.old.forest.parents n ≡ Some d
            → IsReach (switched grid.now self.old.forest.closed) n r
            → steps.new ≤ steps.old + 8 * (r + 1) }
    {
        self.state.least_without(grid, d, steps)
    }
}
