//! A small network, looked up.
use crate::networks::{FEEDER, network};
use grid_model::{DeviceId, MeterId, Name, NodeId};

#[test]
fn looks_up_a_network(rt: HostRuntime) {
    let grid = network(&rt, rt.alloc(), FEEDER, 5, 4, 4);
    for (text, node, device, meter) in [
        ("E", Some(NodeId(4)), None, None),
        ("T1", None, Some(DeviceId(2)), None),
        ("M4", None, None, Some(MeterId(3))),
    ] {
        let name = Name::read(text.as_bytes()).expect(&rt, "a name");
        assert!(rt; grid.find_node(name) == node, "{text}");
        assert!(rt; grid.find_device(name) == device, "{text}");
        assert!(rt; grid.find_meter(name) == meter, "{text}");
    }
    let at_c = [MeterId(0), MeterId(1)];
    assert!(rt; grid.meters_at(NodeId(2)) == at_c.as_slice());
    assert!(rt; grid.incident(NodeId(2)) == [DeviceId(1)].as_slice());
}
