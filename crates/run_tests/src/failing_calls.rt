//! Runs whose shelf or sink fails on the way.
use crate::worked::{files, words};
use outage_cli::{Status, outage_main};
use outage_ports::{MemoryShelf, MemorySink, Mishap};
use std::alloc::{AllocError, Global};
use std::process::Abort;
use std::test::Fail;

// A run, of which a read fails that begins at that byte of the events, or that call of the sink; how
// it ends, and what it wrote.
#[derive(Clone, Copy)]
struct Case {
    line: &'static str,
    read: Option<u64>,
    call: Option<u64>,
    status: Status,
    written: &'static str,
}

// The first line of the events has 29 bytes, and its entry ten: that takes the sink ten writes, and
// where the events are followed, a flush then.
const CASES: [Case; 4] = [
    Case {
        line: "outage replay tree.net calls.events",
        read: None,
        call: Some(2),
        status: Status::WriteFault,
        written: "co",
    },
    Case {
        line: "outage replay tree.net calls.events",
        read: Some(29),
        call: None,
        status: Status::ReadFault,
        written: "cost,1,30\n",
    },
    Case {
        line: "outage follow tree.net",
        read: None,
        call: Some(10),
        status: Status::WriteFault,
        written: "cost,1,30\n",
    },
    Case {
        line: "outage follow tree.net",
        read: None,
        call: Some(11),
        status: Status::WriteFault,
        written: "cost,1,30\n",
    },
];

// The status of the top call over files and an output in memory.
fn call_main(
    alloc: Global,
    words: &[String],
    shelf: &mut MemoryShelf,
    sink: &mut MemorySink,
) -> Status {
    outage_main(alloc, words, shelf, sink)
}

// Files of which one read gives a byte, and fails where it begins at a byte of the events.
fn shelf(alloc: Global, read: Option<u64>) -> Result<MemoryShelf, AllocError> {
    let mut mishaps = Vec::new(alloc);
    if let Some(place) = read {
        let name = String::from_str(alloc, "calls.events")?;
        let at = Some(place);
        mishaps.push(Mishap { name, at })?;
    }
    Ok(MemoryShelf::new(files(alloc)?, mishaps, 1))
}

// An output of which one write takes a byte, and one call fails.
fn sink(alloc: Global, call: Option<u64>) -> Result<MemorySink, AllocError> {
    let failing = call.into_iter().collect(alloc)?;
    MemorySink::new(alloc, failing, 1, 1_000)
}

fn run(rt: &impl Abort, alloc: Global, case: Case) -> Result<(), AllocError> {
    let words = words(alloc, case.line)?;
    let mut shelf = shelf(alloc, case.read)?;
    let mut sink = sink(alloc, case.call)?;
    let status = call_main(alloc, &words, &mut shelf, &mut sink);
    assert_eq!(rt; status, case.status);
    assert_eq!(rt; sink.bytes(), case.written.as_bytes());
    Ok(())
}

#[test]
fn ends_where_a_call_fails(rt: HostRuntime) -> Result<(), Fail> {
    for case in CASES {
        run(&rt, rt.alloc(), case)?;
    }
    Ok(())
}
