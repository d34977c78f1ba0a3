//! What the command words ask for.
#![tactic(auto)]

mod given;
mod line;
mod matched;
mod words;

pub use words::{Command, Places, Wish, WordsFault, read_words};
