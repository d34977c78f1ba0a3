//! What a replay writes behind the entries of its lines: the report, its summary, and the bounds part.
#![tactic(auto)]

mod put;
mod report;
mod rows;
mod sections;
mod words;

pub use line_entries::{LineRule, PutFault, applied_is_last_change, put_changes, put_refused};
pub use put::{put_bounds_part, put_report, put_summary};
