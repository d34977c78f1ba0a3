//! What a line is for a reader of fields.
ghost use Rattle.std.specs.Prelude.{◌≡◌};
ghost use Rattle.line_text.specs.LineSorts as spec;

use crate::lines::{MOST_LINE, is_skipped_line};
use crate::rows::is_bare_line;

/// What a line is for a reader of fields: the first of these that it is.
#[derive(Clone, Copy, Debug, PartialEq, Eq)]
pub enum LineSort {
    /// It says nothing: it is empty, or begins with `#` and has at most [`MOST_LINE`] bytes.
    Skipped,
    /// It has more than [`MOST_LINE`] bytes.
    TooLong,
    /// It begins with a byte order mark, or holds a double quote, a CR or an LF.
    NoFields,
    /// It has fields: what stands between its commas.
    Row,
}

impl LineSort {
    /// What a line is.
    #[tactic(auto, unfolding(crate::specs::LineSorts::sort_of))]
    pub fn of(line: &[u8]) -> LineSort
        ensures { result ≡ spec.sort_of line.now }
    {
        if is_skipped_line(line) {
            LineSort::Skipped
        } else if line.len() > MOST_LINE {
            LineSort::TooLong
        } else if is_bare_line(line) {
            LineSort::NoFields
        } else {
            LineSort::Row
        }
    }
}
