//! The outages that a diagnosis names, one inside another where devices opened one below another.
#![tactic(auto)]

mod cuts;
mod listing;
mod nested;
mod tally;

pub use nested::outages;
