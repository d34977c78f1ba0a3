//! The least cost, by a walk and one pass of sums.
ghost use Rattle.std.specs.Prelude.{◌≡◌, ◌≤◌, ◌<◌, ◌^◌, length, sum, slice_index, IfOk};
ghost use Rattle.outage_rules.specs.Diagnosis.{IsLeastCost};
ghost use Rattle.outage_rules.specs.Certificate.{HasExactRows};
ghost use Rattle.outage_rules.specs.TreeOrder.{source_total};
ghost use Rattle.grid_model.specs.Network.{network_of, problem_with};
ghost use Rattle.grid_model.specs.Sound.{IsSoundParts};
ghost use Rattle.radial_forest.specs.Traversed.{IsTraversed};
ghost use Rattle.subtree_costs.specs.Costed.{most_reported};
ghost use Rattle.diagnosis.specs.Passes.{with_rows};

use crate::above::device_above;
use crate::walks::starting_traversal;
use grid_model::{Grid, NodeId};
use radial_forest::Traversal;
use std::alloc::{AllocError, Global};

/// The least cost over all sets of opened devices in the starting states: the weights of the opened
/// devices, and the dark weights of the nodes that stay live. An error says that memory ran out.
pub fn least(alloc: Global, grid: &Grid, dark: &[u64]) -> Result<u64, AllocError>
    requires each { length dark.now ≡ length grid.now.nodes }
    requires bound { sum dark.now ≤ most_reported }
    ensures { IfOk result (λ c. IsLeastCost (problem_with grid.now (λ n. slice_index dark.now n)) c) }
{
    let traversal = starting_traversal(alloc, grid)?;
    let mut rows = dark.to_vec(alloc)?;
    Ok(least_by_rows(grid, &traversal, &mut rows))
}

// The least cost, where the rows are the dark weights. They are written over.
fn least_by_rows(grid: &Grid, traversal: &Traversal, rows: &mut [u64]) -> u64
    requires sound { IsSoundParts grid.now }
    requires traversed { IsTraversed (network_of grid.now) traversal.now }
    requires each { length rows.old ≡ length grid.now.nodes }
    requires bound { sum rows.old ≤ most_reported }
    ensures { IsLeastCost (problem_with grid.now (slice_index rows.old)) result }
{
    add_up(grid, traversal, rows);
    total_at_sources(grid, rows)
}

// Adds to each row the lesser of each row below it and the weight of the device between, from the
// last node to the first.
fn add_up(grid: &Grid, traversal: &Traversal, rows: &mut [u64])
    requires sound { IsSoundParts grid.now }
    requires traversed { IsTraversed (network_of grid.now) traversal.now }
    requires each { length rows.old ≡ length grid.now.nodes }
    requires bound { sum rows.old ≤ most_reported }
    ensures { HasExactRows (problem_with grid.now (slice_index rows.old)) (with_rows traversal.now (slice_index rows.new) (λ n. 0)) }
{
    let order = traversal.order();
    for k in (0..order.len()).rev() {
        let n = order[k];
        if let Some(above) = device_above(grid, traversal, n) {
            let row = rows[n.0 as usize];
            rows[above.node.0 as usize] += row.min(above.weight);
        }
    }
}

// The sum of the sources' rows.
pub(crate) fn total_at_sources(grid: &Grid, rows: &[u64]) -> u64
    requires each { length rows.now ≡ length grid.now.nodes }
    requires fits { source_total (network_of grid.now) (slice_index rows.now) < 2 ^ 64 }
    ensures { result ≡ source_total (network_of grid.now) (slice_index rows.now) }
{
    let mut total = 0;
    for n in 0..grid.nodes() {
        if grid.is_source(NodeId(n)) {
            total += rows[n as usize];
        }
    }
    total
}
