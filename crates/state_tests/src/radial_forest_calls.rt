//! Walks and loops on a small network.
ghost use Rattle.std.specs.Prelude.{◌≡◌, length};

use crate::networks::{LINES, network};
use grid_model::{DeviceId, Grid, NodeId};
use radial_forest::{Traversal, first_loop};
use std::alloc::{AllocError, Global};
use std::process::Abort;

// Compares, in these states of the six lines, the first that closes a loop, and how far B is from its
// source.
fn check(
    rt: &impl Abort,
    alloc: Global,
    grid: &Grid,
    closed: [bool; 6],
    first: Option<DeviceId>,
    depth: Option<u32>,
) -> Result<(), AllocError>
    requires nodes { length grid.now.nodes ≡ 6 }
    requires devices { length grid.now.devices ≡ 6 }
{
    assert!(rt; first_loop(alloc, grid, &closed)? == first);
    let mut traversal = Traversal::new(alloc, grid)?;
    assert!(rt; traversal.is_radial(grid, &closed) == first.is_none());
    traversal.walk(grid, &closed);
    assert!(rt; traversal.depth(NodeId(3)) == depth);
    Ok(())
}

#[test]
fn finds_the_first_loop(rt: HostRuntime) -> Result<(), AllocError> {
    let grid = network(&rt, rt.alloc(), LINES, 6, 6, 0);
    let two = Some(DeviceId(2));
    let three = Some(DeviceId(3));
    let five = Some(DeviceId(5));
    for (closed, first, depth) in [
        ([true, true, false, false, true, false], None, Some(2)),
        ([true, true, true, true, true, true], two, Some(1)),
        ([true, true, false, true, true, true], three, Some(1)),
        ([false, true, false, false, true, true], five, None),
        ([true, false, true, false, false, true], None, Some(1)),
    ] {
        check(&rt, rt.alloc(), &grid, closed, first, depth)?;
    }
    Ok(())
}
