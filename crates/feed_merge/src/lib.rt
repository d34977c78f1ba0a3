//! Several feeds merged into one text, line by line in the order of their times.
#![tactic(auto)]

mod heads;
mod laws;
mod merging;

pub use laws::{
    feed_keeps_its_order, key_is_greatest, merged_ascends, merged_has_each_line, merged_is_cut,
    merged_is_the_only_one,
};
pub use merging::merge;
