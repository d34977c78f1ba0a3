//! What the text of events says, by definition.
#![tactic(auto)]

mod read_rule;

pub use read_rule::ReadRule;
