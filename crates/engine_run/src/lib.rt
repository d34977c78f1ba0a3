//! From the files of a network and its events to the engine after them.
#![tactic(auto)]

mod engine;
mod limited;
mod nowhere;
mod statuses;

pub use engine::{Ran, engine_over, run_engine};
pub use limited::read_limited;
pub use nowhere::Nowhere;
pub use statuses::{status_after, status_by};
