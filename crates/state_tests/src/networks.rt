//! The networks of the tests, from their texts.
ghost use Rattle.std.specs.Prelude.{◌≡◌, length};

use grid_model::Grid;
use grid_reader::read_grid;
use std::alloc::Global;
use std::process::Abort;

/// From the source S a breaker leads to A, and from there a fuse to C and a transformer each to D and
/// to E. Two meters stand at C, and one each at D and at E.
pub(crate) const FEEDER: &str = "source,S
device,B1,breaker,S,A,closed,-
device,F1,fuse,A,C,closed,-
device,T1,transformer,A,D,closed,-
device,T2,transformer,A,E,closed,-
meter,M1,C,10
meter,M2,C,20
meter,M3,D,5
meter,M4,E,5
";

/// Lines between the source S, A and B, one from B to the source T, and two between C and D.
pub(crate) const LINES: &str = "source,S
source,T
device,SA,line,S,A,open,-
device,AB,line,A,B,open,-
device,BS,line,B,S,open,-
device,BT,line,B,T,open,-
device,CD,line,C,D,open,-
device,DC,line,D,C,open,-
";

/// A source at which one meter stands.
pub(crate) const METER: &str = "source,S
meter,M,S,1
set,call,11
set,gasp,12
set,ping_down,13
set,ping_up,14
set,powerup,15
set,live_hold,600
set,grace,120
set,ok_hold,900
";

/// The network of a text, which has so many nodes, devices and meters.
pub(crate) fn network(
    rt: &impl Abort,
    alloc: Global,
    text: &str,
    nodes: u32,
    devices: u32,
    meters: u32,
) -> Grid
    ensures nodes { length result.nodes ≡ nodes }
    ensures devices { length result.devices ≡ devices }
    ensures meters { length result.meters ≡ meters }
{
    assert!(rt; text.len() <= 1_000);
    let grid = read_grid(alloc, text.as_bytes())
        .ok()
        .expect(rt, "a network");
    assert!(rt; grid.nodes() == nodes && grid.devices() == devices && grid.meters() == meters);
    grid
}
