//! The event that a line of an event text says, or the first rule that it breaks.
#![tactic(auto)]

mod block;
mod parts;
mod read;
mod refusal;
mod reports;
mod words;

pub use block::next_event;
pub use read::read_event;
pub use refusal::ReadRefusal;
