//! A replay over a shelf and a sink.
#![tactic(auto)]

mod replay;

pub use replay::run_replay;
