//! The list of outages, by what is noted of the nodes and told of the devices.
ghost use Rattle.std.specs.Prelude.{◌≡◌, ◌<◌, length, IfOk};
ghost use Rattle.subtree_costs.specs.Costed.{IsCosted};
ghost use Rattle.nested_faults.specs.LastCuts.{noted_at};
ghost use Rattle.nested_faults.specs.Listing.{hangs_by, upper_end, outage_in, outages_in};

use crate::tally::Tally;
use diagnosis::Judged;
use grid_model::{DeviceId, Grid, NodeId, Outage};
use std::alloc::{AllocError, Global};
use subtree_costs::CostForest;

// Whether a node hangs by a device.
fn hangs_by(costs: &CostForest, n: NodeId, d: DeviceId) -> bool
    requires { n.0 < length costs.now.forest.roots }
    ensures { result ≡ hangs_by costs.now n.0 d.0 }
{
    match costs.forest().parent(n) {
        Some(parent) => parent.0 == d.0,
        None => false,
    }
}

// The end of a device that doesn't hang by it.
fn upper_end(grid: &Grid, costs: &CostForest, d: DeviceId) -> NodeId
    requires costed { IsCosted grid.now costs.now }
    requires device { d.0 < length grid.now.devices }
    ensures end { result.0 ≡ upper_end grid.now costs.now d.0 }
    ensures within { result.0 < length grid.now.nodes }
{
    let device = grid.device(d);
    if hangs_by(costs, device.from, d) {
        device.to
    } else {
        device.from
    }
}

// The last opened device on the walk to a device.
fn cut_above(
    grid: &Grid,
    costs: &CostForest,
    last: &[Option<DeviceId>],
    d: DeviceId,
) -> Option<DeviceId>
    requires costed { IsCosted grid.now costs.now }
    requires each { length last.now ≡ length grid.now.nodes }
    requires device { d.0 < length grid.now.devices }
    ensures { result ≡ noted_at last.now (upper_end grid.now costs.now d.0) }
{
    last[upper_end(grid, costs, d).0 as usize]
}

// The outage of an opened device.
fn outage(
    grid: &Grid,
    costs: &CostForest,
    last: &[Option<DeviceId>],
    tallies: &[Tally],
    d: DeviceId,
) -> Outage
    requires costed { IsCosted grid.now costs.now }
    requires each_node { length last.now ≡ length grid.now.nodes }
    requires each_device { length tallies.now ≡ length grid.now.devices }
    requires device { d.0 < length grid.now.devices }
    ensures { result ≡ outage_in grid.now costs.now last.now tallies.now d.0 }
{
    let tally = tallies[d.0 as usize];
    Outage {
        device: d,
        above: cut_above(grid, costs, last, d),
        meters: tally.meters,
        customers: tally.customers,
        since: tally.since,
        nested: tally.nested,
    }
}

/// The outages of the opened devices, by device number. An error says that memory ran out.
pub(crate) fn list_outages(
    alloc: Global,
    grid: &Grid,
    costs: &CostForest,
    judged: &Judged,
    last: &[Option<DeviceId>],
    tallies: &[Tally],
) -> Result<Vec<Outage>, AllocError>
    requires costed { IsCosted grid.now costs.now }
    requires flags { length judged.now.opened ≡ length grid.now.devices }
    requires each_node { length last.now ≡ length grid.now.nodes }
    requires each_device { length tallies.now ≡ length grid.now.devices }
    ensures { IfOk result (λ v. v.items ≡ outages_in grid.now costs.now judged.now last.now tallies.now (length grid.now.devices)) }
{
    let mut outages = Vec::new(alloc);
    for d in 0..grid.devices() {
        if judged.is_opened(DeviceId(d)) {
            outages.push(outage(grid, costs, last, tallies, DeviceId(d)))?;
        }
    }
    Ok(outages)
}
