//! The run over the events of a file: each line is skipped, refused or applied, and what it changes is
//! written before more is read.
#![tactic(auto)]

mod kept;
mod reading;
mod run;
mod taken;
mod unread;

pub use reading::{EventsStop, run_events};
