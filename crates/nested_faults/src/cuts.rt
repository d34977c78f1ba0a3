//! The last opened device on the walk from its source down to each node.
ghost use Rattle.std.specs.Prelude.{◌≡◌, ◌<◌, length, IfOk, IfSome};
ghost use Rattle.outage_rules.specs.Certificate.{other_end};
ghost use Rattle.grid_model.specs.Network.{network_of};
ghost use Rattle.subtree_costs.specs.Costed.{IsCosted};
ghost use Rattle.nested_faults.specs.LastCuts.{fed_parent, noted_at, noted_below, AreLastCuts};

use diagnosis::Judged;
use grid_model::{DeviceId, Grid, NodeId};
use std::alloc::{AllocError, Global};
use subtree_costs::{CostForest, fed_rows_are_exact};

// The end of a device that isn't this node.
fn other_end(grid: &Grid, d: DeviceId, n: NodeId) -> NodeId
    requires { d.0 < length grid.now.devices }
    ensures { result.0 ≡ other_end (network_of grid.now) d.0 n.0 }
{
    let (from, to) = grid.ends(d);
    if to == n { from } else { to }
}

// The device from which a fed node hangs.
fn fed_parent(grid: &Grid, costs: &CostForest, n: NodeId) -> Option<DeviceId>
    requires costed { IsCosted grid.now costs.now }
    requires node { n.0 < length grid.now.nodes }
    ensures parent { result ≡ fed_parent grid.now costs.now n.0 }
    ensures within { IfSome result (λ d. d.0 < length grid.now.devices) }
{
    let forest = costs.forest();
    if forest.is_fed(grid, n) {
        forest.parent(n)
    } else {
        None
    }
}

// The last opened device on the walk to a node, by what is noted of the node above.
fn last_cut(
    grid: &Grid,
    costs: &CostForest,
    judged: &Judged,
    last: &[Option<DeviceId>],
    n: NodeId,
) -> Option<DeviceId>
    requires costed { IsCosted grid.now costs.now }
    requires flags { length judged.now.opened ≡ length grid.now.devices }
    requires node { n.0 < length grid.now.nodes }
    requires each { length last.now ≡ length grid.now.nodes }
    ensures { result ≡ noted_below grid.now judged.now last.now n.0 (fed_parent grid.now costs.now n.0) }
{
    let d = fed_parent(grid, costs, n)?;
    if judged.is_opened(d) {
        Some(d)
    } else {
        last[other_end(grid, d, n).0 as usize]
    }
}

// Notes of each node the last opened device on the walk to it, where there is one.
fn note_last_cuts(grid: &Grid, costs: &CostForest, judged: &Judged, last: &mut [Option<DeviceId>])
    requires costed { IsCosted grid.now costs.now }
    requires flags { length judged.now.opened ≡ length grid.now.devices }
    requires each { length last.old ≡ length grid.now.nodes }
    ensures { AreLastCuts grid.now costs.now judged.now last.new }
{
    fed_rows_are_exact();
    for n in costs.order() {
        last[n.0 as usize] = last_cut(grid, costs, judged, last, *n);
    }
}

/// By node, the last opened device on the walk to it, where there is one. An error says that
/// memory ran out.
pub(crate) fn last_cuts(
    alloc: Global,
    grid: &Grid,
    costs: &CostForest,
    judged: &Judged,
) -> Result<Vec<Option<DeviceId>>, AllocError>
    requires costed { IsCosted grid.now costs.now }
    requires flags { length judged.now.opened ≡ length grid.now.devices }
    ensures { IfOk result (λ last. AreLastCuts grid.now costs.now judged.now last.items) }
{
    let mut last = vec![in alloc; None; grid.nodes() as usize]?;
    note_last_cuts(grid, costs, judged, &mut last);
    Ok(last)
}
