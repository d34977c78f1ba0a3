//! What explains the reports without a device.
use crate::laws::field_poses;
use crate::state::State;
use grid_model::{DeviceId, Grid, Mark};
use outage_rules::one_least_cost;
use std::sync::ledger::Ledger;
use subtree_costs::{Steps, rows_are_least, total_is_least};

impl State {
    ghost use Rattle.std.specs.Prelude.{◌≡◌, ◌<◌, ◌≤◌, ◌+◌, ◌*◌, ℕ, List, Some, length, true, false, slice_index_or};
    ghost use Rattle.grid_model.specs.Problem.{mark_at};
    ghost use Rattle.grid_model.specs.declared.history.Event.{Event};
    ghost use Rattle.grid_model.specs.declared.history.Mark.TheVariants.{Nothing};
    ghost use Rattle.history_rules.specs.Posed.{problem_after};
    ghost use Rattle.radial_forest.specs.Traversed.{parent_in};
    ghost use Rattle.radial_forest.specs.Spreading.{switched};
    ghost use Rattle.subtree_costs.specs.Reach.{IsReach};
    ghost use Rattle.field_state.specs.Fielded.{IsField, IsFieldAfter};
    ghost use Rattle.field_state.specs.Without.{IsLeastWithout};

    /// The least cost over the feasible sets that leave out a closed device without a mark. Takes no
    /// memory, and leaves all as it was.
    pub(crate) fn least_without<L: Ledger>(
        &mut self,
        grid: &Grid,
        d: DeviceId,
        steps: &mut Steps<L>,
    ) -> u64
        requires field { IsField grid.now self.old }
        requires device { d.0 < length grid.now.devices }
        requires closed { slice_index_or self.old.forest.closed d.0 false ≡ true }
        requires unmarked { mark_at self.old.marks d.0 ≡ Nothing }
        ensures same { self.new ≡ self.old }
        ensures least { (h : List Event) → IsFieldAfter grid.now h self.old
            → IsLeastWithout (problem_after grid.now h) d.0 result }
        ensures steps { (n r : ℕ) → n < length grid.now.nodes
            → parent_in self.old.forest.parents n ≡ Some d
            → IsReach (switched grid.now self.old.forest.closed) n r
            → steps.new ≤ steps.old + 8 * (r + 1) }
    {
        rows_are_least();
        total_is_least();
        one_least_cost();
        field_poses();
        self.costs.set_mark(grid, d, Mark::Fine, steps);
        let least = self.costs.total();
        self.costs.set_mark(grid, d, Mark::Nothing, steps);
        least
    }
}
