//! The device from which a node hangs.
ghost use Rattle.std.specs.Prelude.{◌≡◌, ◌<◌, length, option_map, IfSome};
ghost use Rattle.radial_forest.specs.Traversed.{parent_in};
ghost use Rattle.diagnosis.specs.Passes.{above_by};

use grid_model::{DeviceId, Grid, NodeId};
use radial_forest::Traversal;

/// A device that leads down to a node, with its weight and the node at its other end.
#[derive(Clone, Copy)]
pub(crate) struct Above {
    pub(crate) device: DeviceId,
    pub(crate) weight: u64,
    pub(crate) node: NodeId,
}

// The device from which a node hangs, if any.
pub(crate) fn device_above(grid: &Grid, traversal: &Traversal, n: NodeId) -> Option<Above>
    requires node { n.0 < length traversal.now.depths }
    requires device { IfSome (parent_in traversal.now.parents n.0) (λ d. d.0 < length grid.now.devices) }
    ensures { result ≡ option_map (above_by grid.now n.0) (parent_in traversal.now.parents n.0) }
{
    let id = traversal.parent(n)?;
    let device = grid.device(id);
    let node = if device.to.0 == n.0 {
        device.from
    } else {
        device.to
    };
    Some(Above {
        device: id,
        weight: u64::from(device.weight),
        node,
    })
}
