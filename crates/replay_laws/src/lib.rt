//! Laws over whole runs: what a reader of the output knows, what its bounds show, that what a
//! replay writes with its bounds is found valid, and that reports of one time can change places. No
//! code that runs.
#![tactic(auto)]

mod closing;
mod exchange;
mod round_trip;

pub use closing::{bounds_are_shown, cost_is_printed, lines_are_told, run_is_told};
pub use exchange::reports_can_change_places;
pub use round_trip::replay_is_valid;
