//! Events that are followed: what each line prints is there before more is read.
ghost use Rattle.std.specs.Prelude.{◌<◌, true, None, length};

use crate::worked::{CALLS, NET, WRITTEN, words};
use outage_cli::{Status, outage_main};
use outage_ports::{Failed, Shelf, Sink};
use std::alloc::Global;
use std::cell::Cell;
use std::test::Fail;

// How long each line of the calls is.
const LINE: usize = 29;

// A shelf that gives a line of the calls with each read, and notes how many bytes were handed on before.
#[derive(Drop)]
struct NotingShelf<'a> {
    rest: &'static [u8],
    is_followed: bool,
    handed_on: &'a Cell<usize>,
    noted: [usize; 3],
    reads: usize,
}

impl Shelf for NotingShelf<'_> {
    ghost allows = { λ _. Unit {0} };

    ghost files = { λ _. None };

    ghost left = { λ _. None };

    ghost started = { λ _. true };

    ghost faults = { λ _. 0 };

    fn start(&mut self, name: &str) -> Result<(), Failed> {
        self.is_followed = name == "-";
        self.rest = if self.is_followed { CALLS } else { NET }.as_bytes();
        Ok(())
    }

    fn read(&mut self, into: &mut [u8]) -> Result<usize, Failed> {
        if self.is_followed && self.reads < 3 {
            self.noted[self.reads] = self.handed_on.get();
            self.reads += 1;
        }
        let count = self.rest.len().min(into.len()).min(LINE);
        let (front, rest) = self.rest.split_at(count);
        into[..count].copy_from_slice(front);
        self.rest = rest;
        Ok(count)
    }
}

// A sink that tells how many bytes it has handed on.
#[derive(Drop)]
struct TellingSink<'a> {
    written: usize,
    handed_on: &'a Cell<usize>,
}

impl Sink for TellingSink<'_> {
    ghost written = { λ _. None };

    ghost faults = { λ _. 0 };

    fn write(&mut self, piece: &[u8]) -> Result<usize, Failed> {
        self.written = self.written.saturating_add(piece.len());
        Ok(piece.len())
    }

    fn flush(&mut self) -> Result<(), Failed> {
        self.handed_on.set(self.written);
        Ok(())
    }
}

// The status of the top call over them.
fn call_main(
    alloc: Global,
    words: &[String],
    shelf: &mut NotingShelf<'_>,
    sink: &mut TellingSink<'_>,
) -> Status {
    outage_main(alloc, words, shelf, sink)
}

// The first line prints 10 bytes, and the second 22.
#[test]
fn hands_each_line_on(rt: HostRuntime) -> Result<(), Fail> {
    let handed_on = Cell::new(0);
    let mut shelf = NotingShelf {
        rest: &[],
        is_followed: false,
        handed_on: &handed_on,
        noted: [0; 3],
        reads: 0,
    };
    let mut sink = TellingSink {
        written: 0,
        handed_on: &handed_on,
    };
    let given = words(rt.alloc(), "outage follow tree.net")?;
    let status = call_main(rt.alloc(), &given, &mut shelf, &mut sink);
    assert_eq!(rt; status, Status::Done);
    assert_eq!(rt; shelf.reads, 3);
    assert_eq!(rt; shelf.noted, [0, 10, 32]);
    assert_eq!(rt; handed_on.get(), WRITTEN.len());
    Ok(())
}
