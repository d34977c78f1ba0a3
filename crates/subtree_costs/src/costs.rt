//! The least costs of the parts of a network, kept over its trees.
ghost use Rattle.std.specs.Prelude.{◌≡◌, ℕ, false, length, slice_index_or, IfOk};
ghost use Rattle.grid_model.specs.Places.{device_at};
ghost use Rattle.grid_model.specs.Sound.{IsSoundParts};
ghost use Rattle.radial_forest.specs.Forested.{IsForestOf};

use crate::above::{lower_end, other_end};
use crate::laws::{chains_are_within_reach, rows_are_least, total_is_least};
use crate::order::list_all;
use crate::posed::{Change, Posed, share_of};
use crate::rows::{Row, Rows, Steps};
use grid_model::{DeviceId, Grid, Mark, NodeId};
use outage_rules::rows_are_bounded;
use radial_forest::Forest;
use std::alloc::{AllocError, Global};
use std::marker::Model;
use std::sync::ledger::Ledger;

/// The trees of a network with the marks of its devices, the weights of the reports at its nodes,
/// and for each node, fed or not, the least costs of the part at and below it.
#[derive(Drop)]
pub struct CostForest {
    forest: Forest,
    marks: Vec<Mark>,
    dark: Vec<u64>,
    live: Vec<u64>,
    rows: Rows,
    total: u64,
    order: Vec<NodeId>,
}

impl Model for CostForest {
    ghost use Rattle.subtree_costs.specs.Costed.{Costed};

    ghost Value = { Costed };

    ghost use Rattle.subtree_costs.specs.CostedInside.{costed_of};

    ghost view = { costed_of };
}

// The states in which the devices start.
fn starting_states(alloc: Global, grid: &Grid) -> Result<Vec<bool>, AllocError>
    ensures sound { IsSoundParts grid.now }
    ensures count { IfOk result (λ closed. length closed.items ≡ length grid.now.devices) }
    ensures states { IfOk result (λ closed. (d : ℕ) → slice_index_or closed.items d false ≡ (device_at grid.now d).starts_closed) }
{
    let mut closed = vec![in alloc; false; grid.devices() as usize]?;
    for d in 0..grid.devices() {
        closed[d as usize] = grid.device(DeviceId(d)).starts_closed;
    }
    Ok(closed)
}

// The trees of the starting states.
fn starting_forest(alloc: Global, grid: &Grid) -> Result<Forest, AllocError>
    ensures sound { IsSoundParts grid.now }
    ensures own { IfOk result (λ f. IsForestOf grid.now f.closed f) }
    ensures states { IfOk result (λ f. (d : ℕ) → slice_index_or f.closed d false ≡ (device_at grid.now d).starts_closed) }
{
    let closed = starting_states(alloc, grid)?;
    Forest::new(alloc, grid, &closed)
}

impl CostForest {
    ghost use Rattle.std.specs.Prelude.{◌≡◌, ◌≤◌, ◌<◌, ◌+◌, ◌*◌, ◌^◌, ℕ, Some, true, false, length, replicate, sum, slice_index, slice_index_or, slice_set, IfOk};
    ghost use Rattle.outage_rules.specs.Network.{IsRadial};
    ghost use Rattle.grid_model.specs.declared.history.Mark.TheVariants.{Nothing};
    ghost use Rattle.grid_model.specs.Parts.{Parts};
    ghost use Rattle.grid_model.specs.Places.{device_at};
    ghost use Rattle.grid_model.specs.Problem.{mark_at};
    ghost use Rattle.radial_forest.specs.Traversed.{parent_in};
    ghost use Rattle.radial_forest.specs.Spreading.{switched};
    ghost use Rattle.radial_forest.specs.Forested.{IsForestOf};
    ghost use Rattle.subtree_costs.specs.Shares.{row_at, share_of};
    ghost use Rattle.subtree_costs.specs.Trees.{depth_in};
    ghost use Rattle.subtree_costs.specs.Repairs.{IsDue};
    ghost use Rattle.subtree_costs.specs.Reach.{IsReach};
    ghost use Rattle.subtree_costs.specs.Costed.{IsWeighed, IsCosted, TellsRow, TellsTotal, most_reported};

    /// The costs in the starting states, without marks and weights. An error says that memory ran
    /// out.
    pub fn build(alloc: Global, grid: &Grid) -> Result<CostForest, AllocError>
        ensures costed { IfOk result (IsCosted grid.now) }
        ensures states { IfOk result (λ costs. (d : ℕ) → slice_index_or costs.forest.closed d false ≡ (device_at grid.now d).starts_closed) }
        ensures marks { IfOk result (λ costs. costs.marks ≡ replicate (length grid.now.devices) Nothing) }
        ensures dark { IfOk result (λ costs. costs.dark ≡ replicate (length grid.now.nodes) 0) }
        ensures live { IfOk result (λ costs. costs.live ≡ replicate (length grid.now.nodes) 0) }
    {
        let nodes = grid.nodes() as usize;
        let forest = starting_forest(alloc, grid)?;
        let mut order = vec![in alloc; NodeId(0); nodes]?;
        list_all(grid, &forest, &mut order);
        Ok(CostForest {
            forest,
            marks: vec![in alloc; Mark::Nothing; grid.devices() as usize]?,
            dark: vec![in alloc; 0; nodes]?,
            live: vec![in alloc; 0; nodes]?,
            rows: Rows::new(alloc, nodes)?,
            total: 0,
            order,
        })
    }

    /// The trees of the closed devices.
    pub fn forest(&self) -> &Forest
        ensures { result.now ≡ self.now.forest }
    {
        &self.forest
    }

    /// All nodes: the roots first, and each other node after the one that it hangs from.
    pub fn order(&self) -> &[NodeId]
        ensures { result.now ≡ self.now.order }
    {
        &self.order
    }

    /// By device, its mark.
    pub fn marks(&self) -> &[Mark]
        ensures { result.now ≡ self.now.marks }
    {
        &self.marks
    }

    /// The mark of a device.
    pub fn mark(&self, d: DeviceId) -> Mark
        requires { d.0 < length self.now.marks }
        ensures { result ≡ mark_at self.now.marks d.0 }
    {
        self.marks[d.0 as usize]
    }

    /// By node, what the reports that say it is dark weigh.
    pub fn dark_weights(&self) -> &[u64]
        ensures { result.now ≡ self.now.dark }
    {
        &self.dark
    }

    /// By node, what the reports that say it is live weigh.
    pub fn live_weights(&self) -> &[u64]
        ensures { result.now ≡ self.now.live }
    {
        &self.live
    }

    /// The end of a closed device that hangs by it from the other one.
    pub fn lower_end(&self, grid: &Grid, d: DeviceId) -> NodeId
        requires costed { IsCosted grid.now self.now }
        requires device { d.0 < length grid.now.devices }
        requires closed { slice_index_or self.now.forest.closed d.0 false ≡ true }
        ensures node { result.0 < length grid.now.nodes }
        ensures hangs { parent_in self.now.forest.parents result.0 ≡ Some d }
    {
        lower_end(grid, &self.forest, d)
    }

    /// The row of a node, fed or not, in one step: what the part at and below it costs at least where
    /// the node is live, and what that part costs where the node is dark.
    pub fn row<L: Ledger>(&self, n: NodeId, steps: &mut Steps<L>) -> Row
        requires { n.0 < length self.now.rows }
        ensures row { result ≡ row_at self.now.rows n.0 }
        ensures least { (g : Parts) → IsCosted g self.now → TellsRow g self.now n.0 result }
        ensures small { (g : Parts) → IsCosted g self.now → (result.live ≤ 2_400_000_000_000) × (result.dark ≤ 2_400_000_000_000) }
        ensures steps { steps.new ≡ steps.old + 1 }
    {
        rows_are_least();
        rows_are_bounded();
        self.rows.read(n, steps)
    }

    /// The least cost over all feasible sets of opened devices.
    pub fn total(&self) -> u64
        ensures total { result ≡ self.now.total }
        ensures least { (g : Parts) → IsCosted g self.now → TellsTotal g self.now }
    {
        total_is_least();
        self.total
    }

    /// Sets what the dark and the live reports at a node weigh, and repairs the rows from the node up
    /// to its root.
    pub fn set_weights<L: Ledger>(
        &mut self,
        grid: &Grid,
        n: NodeId,
        dark: u64,
        live: u64,
        steps: &mut Steps<L>,
    )
        requires costed { IsCosted grid.now self.old }
        requires node { n.0 < length grid.now.nodes }
        requires dark_sum { sum (slice_set self.old.dark n.0 dark) ≤ most_reported }
        requires live_sum { sum (slice_set self.old.live n.0 live) ≤ most_reported }
        ensures costed { IsCosted grid.now self.new }
        ensures forest { self.new.forest ≡ self.old.forest }
        ensures order { self.new.order ≡ self.old.order }
        ensures marks { self.new.marks ≡ self.old.marks }
        ensures dark { self.new.dark ≡ slice_set self.old.dark n.0 dark }
        ensures live { self.new.live ≡ slice_set self.old.live n.0 live }
        ensures steps { (r : ℕ) → IsReach (switched grid.now self.old.forest.closed) n.0 r → steps.new ≤ steps.old + 4 * (r + 1) }
    {
        rows_are_bounded();
        chains_are_within_reach();
        let before = self.weigh(n, dark, live);
        let change = Change {
            before,
            after: Row {
                live: dark,
                dark: live,
            },
        };
        self.repair(grid, n, change, steps);
    }

    /// Marks a device, which is closed or gets no mark, and repairs the rows from the node above it up
    /// to its root. Takes no step where the device is open.
    pub fn set_mark<L: Ledger>(
        &mut self,
        grid: &Grid,
        d: DeviceId,
        mark: Mark,
        steps: &mut Steps<L>,
    )
        requires costed { IsCosted grid.now self.old }
        requires device { d.0 < length grid.now.devices }
        requires closed { slice_index_or self.old.forest.closed d.0 false ≡ false → mark ≡ Nothing }
        ensures costed { IsCosted grid.now self.new }
        ensures forest { self.new.forest ≡ self.old.forest }
        ensures order { self.new.order ≡ self.old.order }
        ensures marks { self.new.marks ≡ slice_set self.old.marks d.0 mark }
        ensures dark { self.new.dark ≡ self.old.dark }
        ensures live { self.new.live ≡ self.old.live }
        ensures open { slice_index_or self.old.forest.closed d.0 false ≡ false → steps.new ≡ steps.old }
        ensures steps { (n r : ℕ) → n < length grid.now.nodes → parent_in self.old.forest.parents n ≡ Some d
            → IsReach (switched grid.now self.old.forest.closed) n r → steps.new ≤ steps.old + 4 * (r + 1) }
    {
        rows_are_bounded();
        chains_are_within_reach();
        if self.forest.is_closed(d) {
            let n = lower_end(grid, &self.forest, d);
            let row = self.rows.read(n, steps);
            let weight = u64::from(grid.device(d).weight);
            let change = self.note(d, mark, weight, row);
            self.repair(grid, other_end(grid, d, n), change, steps);
        }
    }

    /// Opens or closes a device without a mark, and works the trees, their order and all rows out anew.
    /// The closed devices close no loop then. Takes no memory.
    pub fn rebuild<L: Ledger>(
        &mut self,
        grid: &Grid,
        d: DeviceId,
        closed: bool,
        steps: &mut Steps<L>,
    )
        requires costed { IsCosted grid.now self.old }
        requires device { d.0 < length grid.now.devices }
        requires radial { IsRadial (switched grid.now (slice_set self.old.forest.closed d.0 closed)) }
        requires unmarked { mark_at self.old.marks d.0 ≡ Nothing }
        ensures costed { IsCosted grid.now self.new }
        ensures forest { IsForestOf grid.now (slice_set self.old.forest.closed d.0 closed) self.new.forest }
        ensures marks { self.new.marks ≡ self.old.marks }
        ensures dark { self.new.dark ≡ self.old.dark }
        ensures live { self.new.live ≡ self.old.live }
        ensures steps { steps.new ≤ steps.old + 4 * length grid.now.nodes }
    {
        self.forest.rebuild(grid, d, closed);
        self.work_out(grid, steps);
    }

    // Sets the weights at a node, and answers what they were, as a row.
    fn weigh(&mut self, n: NodeId, dark: u64, live: u64) -> Row
        requires dark { n.0 < length self.old.dark }
        requires live { n.0 < length self.old.live }
        ensures before { result ≡ record { live = slice_index self.old.dark n.0; dark = slice_index self.old.live n.0 } }
        ensures after { self.new ≡ record self.old { dark = slice_set self.old.dark n.0 dark; live = slice_set self.old.live n.0 live } }
    {
        let before = Row {
            live: self.dark[n.0 as usize],
            dark: self.live[n.0 as usize],
        };
        self.dark[n.0 as usize] = dark;
        self.live[n.0 as usize] = live;
        before
    }

    // Sets the mark of a device, and answers how that changes what the device adds, by its weight and
    // the row below it.
    fn note(&mut self, d: DeviceId, mark: Mark, weight: u64, row: Row) -> Change
        requires device { d.0 < length self.old.marks }
        requires fits { weight + row.dark < 2 ^ 64 }
        ensures before { result.before ≡ share_of (mark_at self.old.marks d.0) weight row }
        ensures after { result.after ≡ share_of mark weight row }
        ensures marks { self.new ≡ record self.old { marks = slice_set self.old.marks d.0 mark } }
    {
        let before = share_of(self.marks[d.0 as usize], weight, row);
        self.marks[d.0 as usize] = mark;
        Change {
            before,
            after: share_of(mark, weight, row),
        }
    }

    // Changes one term of the row of a node, and repairs the rows above it up to the root.
    fn repair<L: Ledger>(&mut self, grid: &Grid, n: NodeId, change: Change, steps: &mut Steps<L>)
        requires node { n.0 < length grid.now.nodes }
        requires due { IsDue grid.now self.old n.0 change }
        ensures costed { IsCosted grid.now self.new }
        ensures forest { self.new.forest ≡ self.old.forest }
        ensures order { self.new.order ≡ self.old.order }
        ensures marks { self.new.marks ≡ self.old.marks }
        ensures dark { self.new.dark ≡ self.old.dark }
        ensures live { self.new.live ≡ self.old.live }
        ensures steps { steps.new ≤ steps.old + 2 * (depth_in (switched grid.now self.old.forest.closed) self.old.forest n.0 + 1) }
    {
        let posed = Posed {
            grid,
            forest: &self.forest,
            marks: &self.marks,
            dark: &self.dark,
            live: &self.live,
        };
        self.total = posed.repair(&mut self.rows, self.total, n, change, steps);
    }

    // Works the order and all rows out anew, by the trees.
    fn work_out<L: Ledger>(&mut self, grid: &Grid, steps: &mut Steps<L>)
        requires weighed { IsWeighed grid.now self.old.forest self.old.marks self.old.dark self.old.live }
        requires rows { length self.old.rows ≡ length grid.now.nodes }
        requires order { length self.old.order ≡ length grid.now.nodes }
        ensures costed { IsCosted grid.now self.new }
        ensures forest { self.new.forest ≡ self.old.forest }
        ensures marks { self.new.marks ≡ self.old.marks }
        ensures dark { self.new.dark ≡ self.old.dark }
        ensures live { self.new.live ≡ self.old.live }
        ensures steps { steps.new ≤ steps.old + 4 * length grid.now.nodes }
    {
        list_all(grid, &self.forest, &mut self.order);
        let posed = Posed {
            grid,
            forest: &self.forest,
            marks: &self.marks,
            dark: &self.dark,
            live: &self.live,
        };
        self.total = posed.work_out(&self.order, &mut self.rows, steps);
    }
}
