//! What a ledger tells after some meters went dark and live.
use grid_model::{Line, MeterId, Stamp};
use interruption_ledger::Ledger;
use std::alloc::AllocError;

fn line(meter: u32, start: u64, end: Option<Stamp>) -> Line {
    Line {
        meter: MeterId(meter),
        start: Stamp(start),
        end,
    }
}

#[test]
fn lists_lines_by_meter(rt: HostRuntime) -> Result<(), AllocError> {
    let mut ledger = Ledger::new(rt.alloc(), &[false, true, false])?;
    ledger.reserve(3)?;
    ledger.went_dark(MeterId(2), Stamp(10));
    ledger.went_live(MeterId(1), Stamp(20));
    ledger.went_live(MeterId(2), Stamp(30));
    ledger.went_dark(MeterId(0), Stamp(30));
    ledger.went_dark(MeterId(2), Stamp(40));
    ledger.went_live(MeterId(0), Stamp(50));
    let expected = [
        line(0, 30, Some(Stamp(50))),
        line(2, 10, Some(Stamp(30))),
        line(2, 40, None),
    ];
    assert!(rt; ledger.all_lines(rt.alloc())?.as_slice() == expected.as_slice());
    Ok(())
}
