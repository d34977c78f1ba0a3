//! The bounds that show the least cost.
ghost use Rattle.std.specs.Prelude.{◌≡◌, ◌<◌, ◌≤◌, ◌+◌, ℕ, Some, None, if◌then◌else◌, length, slice_index, slice_set, IfOk};
ghost use Rattle.outage_rules.specs.Network.{IsSound};
ghost use Rattle.outage_rules.specs.Certificate.{other_end};
ghost use Rattle.outage_rules.specs.TightLaws.{whole_weight};
ghost use Rattle.grid_model.specs.declared.parts.DeviceId.{DeviceId};
ghost use Rattle.grid_model.specs.Network.{network_of};
ghost use Rattle.radial_forest.specs.Traversed.{parent_in};
ghost use Rattle.subtree_costs.specs.Costed.{IsCosted, problem_in};
ghost use Rattle.diagnosis.specs.Judgement.{IsJudged};
ghost use Rattle.bound_table.specs.Sound.{most_cost, IsTableOf};
ghost use Rattle.bound_table.specs.Tight.{tight_bounds};
ghost use Rattle.outage_engine.specs.Bounding.{is_fed, AreDepths, kept_row, kept_rows};

use bound_table::{BoundRow, Bounds};
use diagnosis::{Judged, judged_tells_diagnosis};
use grid_model::{DeviceId, Grid, NodeId};
use std::alloc::{AllocError, Global};
use std::marker::Brand;
use std::sync::ledger::{Blank, Ledger};
use subtree_costs::{CostForest, Steps, fed_rows_are_exact, total_is_least};

// The end of a device that isn't this node.
fn other_end(grid: &Grid, d: DeviceId, n: NodeId) -> NodeId
    requires { d.0 < length grid.now.devices }
    ensures { result.0 ≡ other_end (network_of grid.now) d.0 n.0 }
{
    let (from, to) = grid.ends(d);
    if to == n { from } else { to }
}

// Notes how many devices are between a node and the root of its tree, by what is noted of the node
// above.
fn note_depth(grid: &Grid, costs: &CostForest, n: NodeId, depths: &mut [u32])
    requires costed { IsCosted grid.now costs.now }
    requires node { n.0 < length grid.now.nodes }
    requires each { length depths.old ≡ length grid.now.nodes }
    requires fits { (d : DeviceId) → parent_in costs.now.forest.parents n.0 ≡ Some d → slice_index depths.old (other_end (network_of grid.now) d.0 n.0) < 4_294_967_295 }
    ensures top { parent_in costs.now.forest.parents n.0 ≡ None → depths.new ≡ depths.old }
    ensures below { (d : DeviceId) → parent_in costs.now.forest.parents n.0 ≡ Some d
        → depths.new ≡ slice_set depths.old n.0 (slice_index depths.old (other_end (network_of grid.now) d.0 n.0) + 1) }
{
    if let Some(d) = costs.forest().parent(n) {
        let above = other_end(grid, d, n);
        depths[n.0 as usize] = depths[above.0 as usize] + 1;
    }
}

// Notes the same of all nodes, of which nothing is noted.
fn note_depths(grid: &Grid, costs: &CostForest, depths: &mut [u32])
    requires costed { IsCosted grid.now costs.now }
    requires each { length depths.old ≡ length grid.now.nodes }
    requires none { (n : ℕ) → slice_index depths.old n ≡ 0 }
    ensures { AreDepths grid.now costs.now depths.new }
{
    for n in costs.order() {
        note_depth(grid, costs, *n, depths);
    }
}

// By node, how many devices are between it and the root of its tree.
fn depths_of(alloc: Global, grid: &Grid, costs: &CostForest) -> Result<Vec<u32>, AllocError>
    requires { IsCosted grid.now costs.now }
    ensures { IfOk result (λ depths. AreDepths grid.now costs.now depths.items) }
{
    let mut depths = vec![in alloc; 0; grid.nodes() as usize]?;
    note_depths(grid, costs, &mut depths);
    Ok(depths)
}

// What is kept of a node, if it is fed.
fn row_of<L: Ledger>(
    grid: &Grid,
    costs: &CostForest,
    depths: &[u32],
    node: NodeId,
    steps: &mut Steps<L>,
) -> Option<BoundRow>
    requires costed { IsCosted grid.now costs.now }
    requires depths { length depths.now ≡ length grid.now.nodes }
    requires node { node.0 < length grid.now.nodes }
    ensures { result ≡ (if is_fed grid.now costs.now node.0 then Some (kept_row costs.now depths.now node.0) else None) }
{
    let forest = costs.forest();
    if forest.is_fed(grid, node) {
        let row = costs.row(node, steps);
        Some(BoundRow {
            node,
            parent: forest.parent(node),
            depth: depths[node.0 as usize],
            live: row.live,
            dark: row.dark,
        })
    } else {
        None
    }
}

// A row for each fed node, by number. It counts no steps for anyone.
fn rows_of<L: Ledger>(
    alloc: Global,
    grid: &Grid,
    costs: &CostForest,
    depths: &[u32],
    blank: Blank,
) -> Result<Vec<BoundRow>, AllocError>
    requires name { blank.name ≡ L.name }
    requires parts { blank.parts ≡ L.parts }
    requires some { 0 < blank.parts }
    requires costed { IsCosted grid.now costs.now }
    requires depths { length depths.now ≡ length grid.now.nodes }
    ensures { IfOk result (λ rows. rows.items ≡ kept_rows grid.now costs.now depths.now (length grid.now.nodes)) }
{
    let mut steps = Steps::<L>::new(blank);
    let mut rows = Vec::new(alloc);
    for n in 0..grid.nodes() {
        if let Some(row) = row_of(grid, costs, depths, NodeId(n), &mut steps) {
            rows.push(row)?;
        }
    }
    Ok(rows)
}

/// The bounds that show the least cost: that cost and the opened devices, and what the part at and
/// below each fed node costs. An error says that memory ran out.
pub(crate) fn bounds_of(
    alloc: Global,
    grid: &Grid,
    costs: &CostForest,
    judged: &Judged,
) -> Result<Bounds, AllocError>
    requires costed { IsCosted grid.now costs.now }
    requires sound { IsSound (problem_in grid.now costs.now) }
    requires judged { IsJudged grid.now costs.now judged.now }
    ensures tight { IfOk result (λ b. b ≡ tight_bounds (problem_in grid.now costs.now)) }
    ensures of_network { IfOk result (λ b. whole_weight (problem_in grid.now costs.now) ≤ most_cost → IsTableOf grid.now b) }
{
    fed_rows_are_exact();
    total_is_least();
    judged_tells_diagnosis();
    let depths = depths_of(alloc, grid, costs)?;
    let rows = rows_of::<Brand>(alloc, grid, costs, &depths, Blank::new(1))?;
    let cuts = judged.opened_list(alloc)?;
    Ok(Bounds {
        cost: costs.total(),
        cuts,
        rows,
    })
}
