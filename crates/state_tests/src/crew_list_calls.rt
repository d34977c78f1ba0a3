//! The order of two groups of as many customers, and one with no second.
ghost use Rattle.history_rules.specs.Crew.{CanBeOrdered};

use crew_list::order;
use grid_model::{DeviceId, Outage, Stamp};
use std::alloc::AllocError;

fn outages() -> [Outage; 4]
    ensures { CanBeOrdered result }
{
    [
        Outage {
            device: DeviceId(1),
            above: None,
            meters: 1,
            customers: 10,
            since: Some(Stamp(103)),
            nested: false,
        },
        Outage {
            device: DeviceId(2),
            above: Some(DeviceId(1)),
            meters: 2,
            customers: 30,
            since: Some(Stamp(101)),
            nested: false,
        },
        Outage {
            device: DeviceId(5),
            above: None,
            meters: 3,
            customers: 40,
            since: None,
            nested: false,
        },
        Outage {
            device: DeviceId(7),
            above: None,
            meters: 4,
            customers: 40,
            since: Some(Stamp(50)),
            nested: false,
        },
    ]
}

#[test]
fn orders_groups(rt: HostRuntime) -> Result<(), AllocError> {
    let places = order(rt.alloc(), &outages())?;
    assert!(rt; places.as_slice() == [3, 0, 1, 2].as_slice());
    Ok(())
}
