//! The state of the field after events: the switching states and marks of the devices, what the
//! reports of each meter weigh, and the clock.
#![tactic(auto)]

mod act;
mod apply;
mod field;
mod kept;
mod laws;
mod new;
mod places;
mod state;
mod without;

pub use field::Field;
pub use laws::field_poses;
