//! The device from which a node hangs.
ghost use Rattle.std.specs.Prelude.{◌≡◌, ◌<◌, ◌↔◌, Some, None, true, false, IsTrue, length, option_map, slice_index_or, IfSome};
ghost use Rattle.outage_rules.specs.Certificate.{other_end};
ghost use Rattle.grid_model.specs.Network.{network_of};
ghost use Rattle.radial_forest.specs.Traversed.{parent_in};
ghost use Rattle.radial_forest.specs.Forested.{IsForestOf};
ghost use Rattle.subtree_costs.specs.Shares.{above_by};

use grid_model::{DeviceId, Grid, NodeId};
use radial_forest::Forest;

/// A device that leads down to a node, with its weight and the node at its other end.
#[derive(Clone, Copy)]
pub(crate) struct Above {
    pub(crate) device: DeviceId,
    pub(crate) weight: u64,
    pub(crate) node: NodeId,
}

// The end of a device that isn't this node.
pub(crate) fn other_end(grid: &Grid, d: DeviceId, n: NodeId) -> NodeId
    requires { d.0 < length grid.now.devices }
    ensures { result.0 ≡ other_end (network_of grid.now) d.0 n.0 }
{
    let (from, to) = grid.ends(d);
    if to == n { from } else { to }
}

// Whether a node hangs from a device.
pub(crate) fn hangs_by(forest: &Forest, n: NodeId, d: DeviceId) -> bool
    requires { n.0 < length forest.now.roots }
    ensures { IsTrue result ↔ (parent_in forest.now.parents n.0 ≡ Some d) }
{
    forest.parent(n) == Some(d)
}

// Whether a node hangs from none.
pub(crate) fn is_root(forest: &Forest, n: NodeId) -> bool
    requires { n.0 < length forest.now.roots }
    ensures { IsTrue result ↔ (parent_in forest.now.parents n.0 ≡ None) }
{
    forest.parent(n).is_none()
}

// The end of a closed device that hangs by it from the other one.
pub(crate) fn lower_end(grid: &Grid, forest: &Forest, d: DeviceId) -> NodeId
    requires of_grid { IsForestOf grid.now forest.now.closed forest.now }
    requires device { d.0 < length grid.now.devices }
    requires closed { slice_index_or forest.now.closed d.0 false ≡ true }
    ensures node { result.0 < length grid.now.nodes }
    ensures hangs { parent_in forest.now.parents result.0 ≡ Some d }
{
    let (from, to) = grid.ends(d);
    if hangs_by(forest, from, d) { from } else { to }
}

// The device from which a node hangs, if any.
pub(crate) fn device_above(grid: &Grid, forest: &Forest, n: NodeId) -> Option<Above>
    requires node { n.0 < length forest.now.roots }
    requires device { IfSome (parent_in forest.now.parents n.0) (λ d. d.0 < length grid.now.devices) }
    ensures { result ≡ option_map (above_by grid.now n.0) (parent_in forest.now.parents n.0) }
{
    let device = forest.parent(n)?;
    Some(Above {
        device,
        weight: u64::from(grid.device(device).weight),
        node: other_end(grid, device, n),
    })
}
