//! Tables of words: which word stands at which place.
#![tactic(auto)]

ghost use Rattle.word_tables.specs.Laws.{WordIsAtPlace, PlaceHasWord};

mod macros;
mod table;
mod words;

pub use table::WordTable;
pub use words::{event_words, kind_words, report_words, rule_words, setting_words};

/// Where no word stands twice, each is found at its place.
pub fn word_is_at_place()
    ensures { WordIsAtPlace }
{}

/// What is found at a place is the word there.
pub fn place_has_word()
    ensures { PlaceHasWord }
{}
