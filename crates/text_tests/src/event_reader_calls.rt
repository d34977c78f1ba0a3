//! Lines of events, each read by itself.
use event_reader::{ReadRefusal, read_event};
use grid_model::{DeviceId, Event, MeterId, Stamp, Want, What};
use grid_reader::read_grid;

// From the source S a breaker leads to A, and from there a fuse to C, where a meter stands.
const FEEDER: &str = "source,S
device,B1,breaker,S,A,closed,-
device,F1,fuse,A,C,closed,-
meter,M1,C,10
";

// The event of ten o'clock on 2024-03-01.
fn event(what: What) -> Result<Option<Event>, ReadRefusal> {
    let time = Stamp(1_709_287_200);
    Ok(Some(Event { time, what }))
}

#[test]
fn reads_lines(rt: HostRuntime) {
    let grid = read_grid(rt.alloc(), FEEDER.as_bytes())
        .ok()
        .expect(&rt, "a network");
    for (line, want) in [
        (
            "2024-03-01T10:00:00Z,call,M1",
            event(What::Call(MeterId(0))),
        ),
        (
            "2024-03-01T10:00:00Z,open,F1",
            event(What::Order(DeviceId(1), Want::Opened)),
        ),
        ("# a note", Ok(None)),
        ("now,shout", Err(ReadRefusal::BadWord)),
    ] {
        assert!(rt;
            read_event(rt.alloc(), &grid, line.as_bytes()) == want,
            "{line}"
        );
    }
}
