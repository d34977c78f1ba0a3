//! The rows of what is posed: their repair along one path, and all of them anew.
ghost use Rattle.std.specs.Prelude.{◌≡◌, ◌<◌, ◌≤◌, ◌+◌, ◌*◌, ◌^◌, ◌==◌, ℕ, length, slice_set, option_map};
ghost use Rattle.outage_rules.specs.Certificate.{HasExactRows, is_child};
ghost use Rattle.grid_model.specs.Problem.{mark_at};
ghost use Rattle.radial_forest.specs.Traversed.{parent_in};
ghost use Rattle.radial_forest.specs.Spreading.{switched};
ghost use Rattle.subtree_costs.specs.Listing.{IsOrder};
ghost use Rattle.subtree_costs.specs.Shares.{above_by, share_of, row_at};
ghost use Rattle.subtree_costs.specs.Costed.{root_part, root_total};
ghost use Rattle.subtree_costs.specs.Repairs.{IsReady, problem_at, table_at, depth_at, share_at, weights_at, AreDue, IsFitting, IsSmall, AreSmall};

use crate::above::{Above, device_above};
use crate::rows::{Row, Rows, Steps};
use grid_model::{Grid, Mark, NodeId};
use radial_forest::Forest;
use std::sync::ledger::Ledger;

/// What is posed: the trees of the closed devices, how each device is marked, and what the dark and
/// the live reports at each node weigh.
#[derive(Drop)]
pub(crate) struct Posed<'a> {
    pub(crate) grid: &'a Grid,
    pub(crate) forest: &'a Forest,
    pub(crate) marks: &'a [Mark],
    pub(crate) dark: &'a [u64],
    pub(crate) live: &'a [u64],
}

/// A row, or what is added to one, before and after it changed.
#[derive(Clone, Copy)]
pub(crate) struct Change {
    pub(crate) before: Row,
    pub(crate) after: Row,
}

// What a device adds to the row of the node above it, by the row of the node below.
pub(crate) fn share_of(mark: Mark, weight: u64, row: Row) -> Row
    requires { weight + row.dark < 2 ^ 64 }
    ensures { result ≡ share_of mark weight row }
{
    let open = weight + row.dark;
    match mark {
        Mark::Opened => Row {
            live: open,
            dark: row.dark + weight,
        },
        Mark::Fine => row,
        Mark::Nothing => Row {
            live: open.min(row.live),
            dark: row.dark,
        },
    }
}

// The row with one term of it changed.
fn replaced(row: Row, change: Change) -> Row
    requires small { IsSmall row }
    requires fitting { IsFitting change }
    requires live { change.before.live ≤ row.live + change.after.live }
    requires dark { change.before.dark ≤ row.dark + change.after.dark }
    ensures live { result.live + change.before.live ≡ row.live + change.after.live }
    ensures dark { result.dark + change.before.dark ≡ row.dark + change.after.dark }
{
    Row {
        live: row.live + change.after.live - change.before.live,
        dark: row.dark + change.after.dark - change.before.dark,
    }
}

impl Posed<'_> {
    // The device from which a node hangs, if any.
    fn above(&self, n: NodeId) -> Option<Above>
        requires ready { IsReady self.now }
        requires node { n.0 < length self.now.grid.now.nodes }
        ensures { result ≡ option_map (above_by self.now.grid.now n.0) (parent_in self.now.forest.now.parents n.0) }
    {
        device_above(self.grid, self.forest, n)
    }

    // What a node with this row adds to the row of the node above it.
    fn share(&self, above: Above, row: Row) -> Row
        requires marks { above.device.0 < length self.now.marks.now }
        requires fits { above.weight + row.dark < 2 ^ 64 }
        ensures { result ≡ share_of (mark_at self.now.marks.now above.device.0) above.weight row }
    {
        share_of(self.marks[above.device.0 as usize], above.weight, row)
    }

    // Changes one term of the row of a node, and answers what the row was and is.
    fn change_row<L: Ledger>(
        &self,
        rows: &mut Rows,
        n: NodeId,
        change: Change,
        steps: &mut Steps<L>,
    ) -> Change
        requires ready { IsReady self.now }
        requires node { n.0 < length self.now.grid.now.nodes }
        requires each { length rows.old ≡ length self.now.grid.now.nodes }
        requires small { IsSmall (row_at rows.old n.0) }
        requires fitting { IsFitting change }
        requires due { AreDue (problem_at self.now) (table_at self.now rows.old) (λ m. n.0 == m) change.before change.after }
        ensures rows { rows.new ≡ slice_set rows.old n.0 result.after }
        ensures before { result.before ≡ row_at rows.old n.0 }
        ensures fitting { IsFitting result }
        ensures due { AreDue (problem_at self.now) (table_at self.now rows.new) (λ m. is_child (problem_at self.now).net (table_at self.now rows.new) m n.0)
            (share_at self.now n.0 result.before) (share_at self.now n.0 result.after) }
        ensures steps { steps.new ≡ steps.old + 2 }
    {
        let before = rows.read(n, steps);
        let after = replaced(before, change);
        rows.write(n, after, steps);
        Change { before, after }
    }

    // What a root comes to, by its row.
    fn root_part(&self, n: NodeId, row: Row) -> u64
        requires { n.0 < length self.now.grid.now.nodes }
        ensures { result ≡ root_part self.now.grid.now n.0 row }
    {
        if self.grid.is_source(n) {
            row.live
        } else {
            row.dark
        }
    }

    // Changes one term of the row of a node, and repairs the rows above it up to the root. Answers
    // what the roots come to then.
    pub(crate) fn repair<L: Ledger>(
        &self,
        rows: &mut Rows,
        total: u64,
        n: NodeId,
        change: Change,
        steps: &mut Steps<L>,
    ) -> u64
        requires ready { IsReady self.now }
        requires node { n.0 < length self.now.grid.now.nodes }
        requires each { length rows.old ≡ length self.now.grid.now.nodes }
        requires small { AreSmall self.now rows.old }
        requires fitting { IsFitting change }
        requires due { AreDue (problem_at self.now) (table_at self.now rows.old) (λ m. n.0 == m) change.before change.after }
        requires total { total ≡ root_total self.now.grid.now self.now.forest.now rows.old }
        ensures each { length rows.new ≡ length self.now.grid.now.nodes }
        ensures exact { HasExactRows (problem_at self.now) (table_at self.now rows.new) }
        ensures total { result ≡ root_total self.now.grid.now self.now.forest.now rows.new }
        ensures steps { steps.new ≤ steps.old + 2 * (depth_at self.now n.0 + 1) }
    {
        let mut top = n;
        let mut whole = self.change_row(rows, n, change, steps);
        while let Some(above) = self.above(top) {
            let share = Change {
                before: self.share(above, whole.before),
                after: self.share(above, whole.after),
            };
            whole = self.change_row(rows, above.node, share, steps);
            top = above.node;
        }
        total + self.root_part(top, whole.after) - self.root_part(top, whole.before)
    }

    // Writes the weights at each node as its row.
    fn write_weights<L: Ledger>(&self, rows: &mut Rows, steps: &mut Steps<L>)
        requires ready { IsReady self.now }
        requires each { length rows.old ≡ length self.now.grid.now.nodes }
        ensures each { length rows.new ≡ length self.now.grid.now.nodes }
        ensures rows { (n : ℕ) → n < length self.now.grid.now.nodes → row_at rows.new n ≡ weights_at self.now n }
        ensures steps { steps.new ≡ steps.old + length self.now.grid.now.nodes }
    {
        for n in 0..self.grid.nodes() {
            let weights = Row {
                live: self.dark[n as usize],
                dark: self.live[n as usize],
            };
            rows.write(NodeId(n), weights, steps);
        }
    }

    // Works the rows out anew, from the last node of an order to the first: each is the node's
    // weights, and what the rows below it and their devices add. Answers what the roots come to.
    pub(crate) fn work_out<L: Ledger>(
        &self,
        order: &[NodeId],
        rows: &mut Rows,
        steps: &mut Steps<L>,
    ) -> u64
        requires ready { IsReady self.now }
        requires order_each { length order.now ≡ length self.now.grid.now.nodes }
        requires order { IsOrder (switched self.now.grid.now self.now.forest.now.closed) self.now.forest.now.parents order.now (length order.now) }
        requires each { length rows.old ≡ length self.now.grid.now.nodes }
        ensures each { length rows.new ≡ length self.now.grid.now.nodes }
        ensures exact { HasExactRows (problem_at self.now) (table_at self.now rows.new) }
        ensures total { result ≡ root_total self.now.grid.now self.now.forest.now rows.new }
        ensures steps { steps.new ≤ steps.old + 4 * length self.now.grid.now.nodes }
    {
        self.write_weights(rows, steps);
        let mut total = 0;
        for k in (0..order.len()).rev() {
            let n = order[k];
            let row = rows.read(n, steps);
            match self.above(n) {
                Some(above) => {
                    let share = self.share(above, row);
                    let upper = rows.read(above.node, steps);
                    let whole = Row {
                        live: upper.live + share.live,
                        dark: upper.dark + share.dark,
                    };
                    rows.write(above.node, whole, steps);
                }
                None => total += self.root_part(n, row),
            }
        }
        total
    }
}
