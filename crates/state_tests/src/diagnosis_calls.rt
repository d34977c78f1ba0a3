//! The least cost of a small network.
use crate::networks::{FEEDER, network};
use diagnosis::least;

// The dark reports at C weigh 60, and those at D 30. The fuse above C weighs 40, and the transformer
// above D 50.
#[test]
fn costs_a_fuse_and_a_report(rt: HostRuntime) {
    let grid = network(&rt, rt.alloc(), FEEDER, 5, 4, 4);
    assert!(rt; least(rt.alloc(), &grid, &[0, 0, 60, 30, 0]) == Ok(70));
}
