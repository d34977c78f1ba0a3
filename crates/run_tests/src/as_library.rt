//! The engine used as a library: which devices explain a meter's last gasp.
ghost use Rattle.std.specs.Prelude.{◌≡◌, ◌≤◌, ◌<◌, ◌^◌, length};
ghost use Rattle.history_rules.specs.StampTexts.{last_second};

use grid_model::{DeviceId, Event, Grid, MeterId, Name, Stamp, What};
use grid_reader::{GridFault, read_grid};
use outage_engine::Engine;
use std::alloc::{AllocError, Global};
use std::marker::Brand;
use std::sync::ledger::{Blank, Ledger};
use subtree_costs::Steps;

// The devices that are taken for opened after a meter's last gasp as the first event of a network,
// by number: none where the network has no meter of the name. The rows that are read and written are
// counted.
fn explain_gasp<L: Ledger>(
    alloc: Global,
    network: &[u8],
    name: Name,
    time: Stamp,
    blank: Blank,
) -> Result<Option<Vec<DeviceId>>, GridFault>
    requires name { blank.name ≡ L.name }
    requires parts { blank.parts ≡ L.parts }
    requires some { 0 < blank.parts }
    requires size { length network.now ≤ 67_108_864 }
    requires range { time.0 ≤ last_second }
{
    let grid = read_grid(alloc, network)?;
    let Some(meter) = grid.find_meter(name) else {
        return Ok(None);
    };
    let mut steps = Steps::<L>::new(blank);
    let opened = explain_first_gasp(alloc, grid, meter, time, &mut steps)?;
    Ok(Some(opened))
}

// The same, where the meter is found.
fn explain_first_gasp<L: Ledger>(
    alloc: Global,
    grid: Grid,
    meter: MeterId,
    time: Stamp,
    steps: &mut Steps<L>,
) -> Result<Vec<DeviceId>, AllocError>
    requires meter { meter.0 < length grid.meters }
    requires range { time.0 ≤ last_second }
{
    let mut engine = Engine::new(alloc, grid)?;
    opened_after_gasp(alloc, &mut engine, meter, time, steps)
}

// The devices that an engine takes for opened after one more last gasp.
fn opened_after_gasp<L: Ledger>(
    alloc: Global,
    engine: &mut Engine,
    meter: MeterId,
    time: Stamp,
    steps: &mut Steps<L>,
) -> Result<Vec<DeviceId>, AllocError>
    requires meter { meter.0 < length engine.old.grid.meters }
    requires room { engine.old.field.applied < 2 ^ 32 }
    requires range { time.0 ≤ last_second }
{
    engine.reserve()?;
    let what = What::Gasp(meter);
    let _ = engine.apply(Event { time, what }, steps);
    engine.judged().opened_list(alloc)
}

const NETWORK: &str = "source,S
device,B1,breaker,S,A,closed,-
device,F1,fuse,A,C,closed,-
meter,M1,C,10
";

#[test]
fn a_fuse_explains_a_gasp(rt: HostRuntime) -> Result<(), GridFault> {
    let name = Name::read(b"M1").expect(&rt, "a name");
    let network = NETWORK.as_bytes();
    let opened = explain_gasp::<Brand>(rt.alloc(), network, name, Stamp(5), Blank::new(1))?;
    let opened = opened.expect(&rt, "a meter");
    assert!(rt; *opened == *[DeviceId(1)].as_slice());
    Ok(())
}
