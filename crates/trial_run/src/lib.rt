//! A trial: the run of the engine over a network and events that are made by rule.
#![tactic(auto)]

mod shelf;
mod trial;

pub use trial::run_trial;
