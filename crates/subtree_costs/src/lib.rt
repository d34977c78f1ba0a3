//! The least costs of the parts at and below the nodes of a network, kept while states, marks and
//! weights change: a change is repaired along one path, up to the root.
#![tactic(auto)]

mod above;
mod costs;
mod laws;
mod order;
mod posed;
mod rows;

pub use costs::CostForest;
pub use laws::{
    chains_are_within_reach, changes_stay_on_walks, each_node_has_a_reach, fed_rows_are_exact,
    rows_are_least, total_is_least,
};
pub use rows::{Row, Steps};
