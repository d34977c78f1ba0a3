//! The network that a text says, or its first line that breaks a rule.
#![tactic(auto)]

ghost use Rattle.grid_reader.specs.Laws.{TextIsSound};

mod draft;
mod fault;
mod read;
mod row;
mod rows;
mod shapes;
mod start;
mod words;

pub use fault::{GridFault, GridRule};
pub use read::read_grid;

/// The network of a text is sound.
pub fn text_is_sound()
    ensures { TextIsSound }
{}
