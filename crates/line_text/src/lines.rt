//! The lines of a text.
ghost use Rattle.std.specs.Prelude.{◌≡◌, ◌<◌, ◌↔◌, [], ◌∷◌, length, IsNone, IfSome};
ghost use Rattle.event_rules.specs.Lines.{lines, is_skipped};
ghost use Rattle.line_text.specs.LineEnds.{without_cr};

use crate::cuts::{begins_with_byte, cut_at};

/// A line without its end has at most so many bytes.
pub const MOST_LINE: usize = 512;

// What stands before an LF, without a CR as its last byte.
pub(crate) fn strip_cr(line: &[u8]) -> &[u8]
    ensures { result.now ≡ without_cr line.now }
{
    match line {
        [front @ .., b'\r'] => front,
        _ => line,
    }
}

/// The first line of a text without its end, which is an LF or a CR and an LF, and what stands
/// behind that end; none exactly where the text is empty.
pub fn next_line(text: &[u8]) -> Option<(&[u8], &[u8])>
    ensures none { IsNone result ↔ (text.now ≡ []) }
    ensures line { IfSome result (λ p. lines text.now ≡ p.0.now ∷ lines p.1.now) }
    ensures shorter { IfSome result (λ p. length p.1.now < length text.now) }
{
    if text.is_empty() {
        return None;
    }
    match cut_at(text, b'\n') {
        Some((line, behind)) => Some((strip_cr(line), behind)),
        None => Some((text, &[])),
    }
}

/// Whether a line says nothing: an empty one, and one that begins with `#` and isn't too long.
pub fn is_skipped_line(line: &[u8]) -> bool
    ensures { result ≡ is_skipped line.now }
{
    line.is_empty() || (begins_with_byte(line, b'#') && line.len() <= MOST_LINE)
}
