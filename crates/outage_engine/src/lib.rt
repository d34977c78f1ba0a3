//! The whole state behind one call: the field after events, the diagnosis of it, and the ledger of
//! interruptions.
#![tactic(auto)]

mod bounds;
mod engine;
mod judging;
mod recording;

pub use engine::Engine;

/// The least cost before an event and after it.
#[derive(Clone, Copy, Debug, PartialEq, Eq)]
pub struct Applied {
    pub cost_before: u64,
    pub cost_after: u64,
}
