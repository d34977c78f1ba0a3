//! A place to read files from, and a place to write bytes to, each with a count of its faults.
#![tactic(auto)]

mod faults;
mod host;
mod memory_shelf;
mod memory_sink;
mod shelf;
mod sink;

pub use host::{HostShelf, HostSink};
pub use memory_shelf::{MemoryShelf, Mishap};
pub use memory_sink::MemorySink;
pub use shelf::Shelf;
pub use sink::{Sink, put_all};

/// How many bytes the program asks for with one read.
pub const PIECE: usize = 65_536;

/// A call to the outside failed.
#[derive(Clone, Copy, Debug, PartialEq, Eq)]
pub struct Failed;
