//! Which devices are taken for opened, by the least costs of the parts of a network: the one cautious diagnosis.
#![tactic(auto)]

mod above;
mod device_flags;
mod flags;
mod judged;
mod laws;
mod node_flags;
mod settling;
mod sums;
mod walks;

pub use judged::Judged;
pub use laws::{changes_can_be_settled, judged_tells_diagnosis};
pub use sums::least;
