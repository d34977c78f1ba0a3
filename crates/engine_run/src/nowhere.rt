//! A sink for what nobody reads.
ghost use Rattle.std.specs.Prelude.{◌<◌, None, length};

use outage_ports::{Failed, Sink};

/// A sink that takes all and keeps nothing.
#[derive(Drop)]
pub struct Nowhere;

impl Sink for Nowhere {
    ghost written = { λ _. None };

    ghost faults = { λ _. 0 };

    fn write(&mut self, piece: &[u8]) -> Result<usize, Failed> {
        Ok(piece.len())
    }

    fn flush(&mut self) -> Result<(), Failed> {
        Ok(())
    }
}
