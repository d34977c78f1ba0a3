//! The certificate of a diagnosis: its cost, its cuts and a row for each fed node; how it is
//! printed, and how it is read again.
#![tactic(auto)]

mod bound_line;
mod bounds;
mod laws;
mod lines;
mod read;
mod words;
mod write;

pub use bounds::{BoundFault, BoundRow, BoundRule, Bounds};
pub use laws::{bounds_have_one_spelling, read_is_of_network, written_is_read};
pub use read::read_bounds;
pub use words::{ReportWord, text_of};
pub use write::put_bounds;
