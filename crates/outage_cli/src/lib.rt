//! The top call over a shelf and a sink: from the bytes of the files to the bytes written and the
//! status.
#![tactic(auto)]

mod main_call;

pub use main_call::outage_main;
pub use run_rules::{Status, Which};
