//! What a run of the program is: what its files say, what is due to be written, and what each status
//! tells. These are definitions and plain types; the code that runs stands above.
#![tactic(auto)]

mod status;

pub use status::{Status, Which};
