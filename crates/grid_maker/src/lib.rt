//! Networks and storms over them that are made by rule, for trials.
#![tactic(auto)]

mod draws;
mod events;
mod happenings;
mod laws;
mod names;
mod network;
mod rows;
mod texts;

pub use laws::{storm_has_lines, texts_are_short};
pub use texts::make;
