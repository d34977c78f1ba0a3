//! The flags of nodes and devices, from the roots of the trees down.
ghost use Rattle.std.specs.Prelude.{◌≡◌, ◌≤◌, ◌<◌, ◌+◌, ◌^◌, ℕ, false, length};
ghost use Rattle.outage_rules.specs.Certificate.{other_end};
ghost use Rattle.grid_model.specs.Places.{device_at};
ghost use Rattle.grid_model.specs.Network.{network_of};
ghost use Rattle.grid_model.specs.Problem.{mark_at};
ghost use Rattle.subtree_costs.specs.Shares.{row_at};
ghost use Rattle.subtree_costs.specs.Costed.{IsCosted};
ghost use Rattle.diagnosis.specs.Judgement.{Agree, flag_in, opens};
ghost use Rattle.diagnosis.specs.Judging.{IsNext};

use crate::device_flags::DeviceFlags;
use crate::node_flags::NodeFlags;
use grid_model::{DeviceId, Grid, Mark, NodeId};
use std::sync::ledger::Ledger;
use subtree_costs::{CostForest, Steps};

/// Which devices are taken for opened, and which nodes are dark.
#[derive(Drop)]
pub(crate) struct Flags {
    pub(crate) opened: DeviceFlags,
    pub(crate) dark: NodeFlags,
}

// Whether a device is taken for opened, by its mark and by what it costs to open it and to keep it closed.
fn is_opening(mark: Mark, dark_above: bool, open_cost: u64, closed_cost: u64) -> bool
    ensures { result ≡ opens mark dark_above open_cost closed_cost }
{
    match mark {
        Mark::Opened => true,
        Mark::Fine => false,
        Mark::Nothing => !dark_above && open_cost < closed_cost,
    }
}

// The end of a device that isn't this node.
pub(crate) fn other_end(grid: &Grid, d: DeviceId, n: NodeId) -> NodeId
    requires { d.0 < length grid.now.devices }
    ensures { result.0 ≡ other_end (network_of grid.now) d.0 n.0 }
{
    let (from, to) = grid.ends(d);
    if to == n { from } else { to }
}

// Whether a device below a node that is flagged is taken for opened, by the row of the node below it.
fn opens_above<L: Ledger>(
    grid: &Grid,
    costs: &CostForest,
    n: NodeId,
    d: DeviceId,
    dark_above: bool,
    steps: &mut Steps<L>,
) -> bool
    requires costed { IsCosted grid.now costs.now }
    requires node { n.0 < length grid.now.nodes }
    requires device { d.0 < length grid.now.devices }
    ensures opens { result ≡ opens (mark_at costs.now.marks d.0) dark_above ((device_at grid.now d.0).weight + (row_at costs.now.rows n.0).dark) (row_at costs.now.rows n.0).live }
    ensures steps { steps.new ≡ steps.old + 1 }
{
    let row = costs.row(n, steps);
    let weight = u64::from(grid.device(d).weight);
    is_opening(costs.mark(d), dark_above, weight + row.dark, row.live)
}

// Flags a node, where the node above it is flagged, and the device that it hangs from.
pub(crate) fn flag_node<L: Ledger>(
    grid: &Grid,
    costs: &CostForest,
    n: NodeId,
    flags: &mut Flags,
    steps: &mut Steps<L>,
)
    requires costed { IsCosted grid.now costs.now }
    requires node { n.0 < length grid.now.nodes }
    requires opened { length flags.old.opened.flags ≡ length grid.now.devices }
    requires dark { length flags.old.dark.flags ≡ length grid.now.nodes }
    ensures next { IsNext grid.now costs.now n.0 flags.old.opened.flags flags.old.dark.flags flags.new.opened.flags flags.new.dark.flags }
    ensures opened_begun { flags.new.opened.begun ≡ flags.old.opened.begun }
    ensures dark_begun { flags.new.dark.begun ≡ flags.old.dark.begun }
    ensures steps { steps.new ≤ steps.old + 1 }
{
    match costs.forest().parent(n) {
        Some(d) => {
            let dark_above = flags.dark.is_set(other_end(grid, d, n));
            let opens = opens_above(grid, costs, n, d, dark_above, steps);
            flags.opened.set(d, opens);
            flags.dark.set(n, dark_above || opens);
        }
        None => flags.dark.set(n, !grid.is_source(n)),
    }
}

// Takes all devices for closed.
fn close_all(grid: &Grid, opened: &mut DeviceFlags)
    requires { length opened.old.flags ≡ length grid.now.devices }
    ensures each { length opened.new.flags ≡ length grid.now.devices }
    ensures none { (d : ℕ) → flag_in opened.new.flags d ≡ false }
    ensures begun { opened.new.begun ≡ opened.old.begun }
{
    for d in 0..grid.devices() {
        opened.set(DeviceId(d), false);
    }
}

// Flags all nodes and devices, each node after the one that it hangs from.
pub(crate) fn flag_all<L: Ledger>(
    grid: &Grid,
    costs: &CostForest,
    flags: &mut Flags,
    steps: &mut Steps<L>,
)
    requires costed { IsCosted grid.now costs.now }
    requires opened { length flags.old.opened.flags ≡ length grid.now.devices }
    requires dark { length flags.old.dark.flags ≡ length grid.now.nodes }
    ensures agree { Agree grid.now costs.now (flag_in flags.new.opened.flags) (flag_in flags.new.dark.flags) }
    ensures opened { length flags.new.opened.flags ≡ length grid.now.devices }
    ensures dark { length flags.new.dark.flags ≡ length grid.now.nodes }
    ensures opened_begun { flags.new.opened.begun ≡ flags.old.opened.begun }
    ensures dark_begun { flags.new.dark.begun ≡ flags.old.dark.begun }
    ensures steps { steps.new ≤ steps.old + length grid.now.nodes }
{
    close_all(grid, &mut flags.opened);
    for n in costs.order() {
        flag_node(grid, costs, *n, flags, steps);
    }
}
