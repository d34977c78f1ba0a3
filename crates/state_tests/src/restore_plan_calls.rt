//! Restoration plans on a small network.
use crate::networks::network;
use grid_model::{DeviceId, MeterId, Want};
use radial_forest::Traversal;
use restore_plan::{Move, plan};
use std::alloc::AllocError;

// A feeder from S to A, B, C and D, with ties from D to T, from C to S and from B to T.
const TIES: &str = "source,S
source,T
device,B1,breaker,S,A,closed,-
device,L1,line,A,B,closed,-
device,L2,line,B,C,closed,-
device,L3,line,C,D,closed,-
device,DT,tie,D,T,open,-
device,CS,tie,C,S,open,-
device,BT,tie,B,T,open,-
meter,MA,A,1
meter,MB,B,1
meter,MC,C,1
meter,MD,D,1
";

#[test]
fn isolates_a_line_and_closes_one_tie(rt: HostRuntime) -> Result<(), AllocError> {
    let alloc = rt.alloc();
    let grid = network(&rt, alloc, TIES, 6, 7, 4);
    let closed = [true, true, true, true, false, false, false];
    let mut traversal = Traversal::new(alloc, &grid)?;
    assert!(rt; traversal.is_radial(&grid, &closed));
    let plan = plan(alloc, &grid, &closed, &[], DeviceId(1))?;
    let opened = |d| Move {
        device: DeviceId(d),
        want: Want::Opened,
    };
    assert!(rt; plan.moves.len() == 4);
    assert!(rt;
        plan.moves[0] == opened(0) && plan.moves[1] == opened(1) && plan.moves[2] == opened(2)
    );
    assert!(rt;
        plan.moves[3]
            == Move {
                device: DeviceId(4),
                want: Want::Closed
            }
    );
    assert!(rt;
        plan.unfed.len() == 2 && plan.unfed[0] == MeterId(0) && plan.unfed[1] == MeterId(1)
    );
    Ok(())
}
