//! The bytes of entries that aren't written yet.
ghost use Rattle.std.specs.Prelude.{◌≡◌, ◌-◌, ◌^◌, [], Some};

use outage_ports::{Failed, Sink};
use std::alloc::Global;

/// Bytes that are kept in memory, one behind the other, until they are written together. A write
/// fails where memory runs out, and none is counted: the count of faults stands at its last value.
#[derive(Drop)]
pub(crate) struct Kept {
    pub(crate) bytes: Vec<u8>,
}

impl Kept {
    /// No bytes.
    pub(crate) fn new(alloc: Global) -> Kept
        ensures { result.bytes.items ≡ [] }
    {
        Kept {
            bytes: Vec::new(alloc),
        }
    }

    /// Lets go of the bytes, and keeps the memory.
    pub(crate) fn clear(&mut self)
        ensures { self.new.bytes.items ≡ [] }
    {
        self.bytes.clear();
    }
}

impl Sink for Kept {
    ghost written = { λ kept. Some kept.bytes.items };

    ghost faults = { λ _. 2 ^ 64 - 1 };

    fn write(&mut self, piece: &[u8]) -> Result<usize, Failed> {
        match self.bytes.extend_from_slice(piece) {
            Ok(()) => Ok(piece.len()),
            Err(_) => Err(Failed),
        }
    }

    fn flush(&mut self) -> Result<(), Failed> {
        Ok(())
    }
}
