//! What a run writes of one line: what its event changes, or by which rule the line is refused.
#![tactic(auto)]

mod entries;
mod fault;
mod rows;

pub use entries::{LineRule, applied_is_last_change, put_changes, put_refused};
pub use fault::PutFault;
