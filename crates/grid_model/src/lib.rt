//! The plain types of a network, its events and what is told of them, and the network itself.
#![tactic(auto)]

mod grid;
mod groups;
mod history;
mod laws;
mod name;
mod names;
mod parts;

pub use grid::Grid;
pub use history::{Confirmed, Event, Line, Mark, Outage, Period, Refusal, Stamp, Want, What};
pub use laws::{network_is_sound, problem_is_sound, starting_network};
pub use name::Name;
pub use names::Names;
pub use parts::{Device, DeviceId, GridParts, Kind, Meter, MeterId, NodeId, Setting};
