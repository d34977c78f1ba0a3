//! A restoration plan: the switching that isolates a device, and feeds again what can be fed.
#![tactic(auto)]

mod barring;
mod laws;
mod moves;
mod planning;
mod queueing;

pub use laws::one_plan;
pub use moves::{Move, Plan};
pub use planning::plan;
