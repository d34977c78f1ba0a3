//! How much each device of a diagnosis is worth to the explanation of the reports.
#![tactic(auto)]

mod blame;

pub use blame::{Margin, margins};
