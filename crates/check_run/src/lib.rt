//! The check of a report over a shelf and a sink.
#![tactic(auto)]

mod check;
mod verdicts;

pub use check::run_check;
