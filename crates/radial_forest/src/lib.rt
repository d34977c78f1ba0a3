//! The forest of a network: what closed devices join to the sources, and whether they close a loop.
#![tactic(auto)]

mod forest;
mod loops;
mod traversal;

pub use forest::Forest;
pub use loops::first_loop;
pub use traversal::Traversal;
