//! Where a byte stands in a text.
ghost use Rattle.std.specs.Prelude.{◌≡◌, ◌==◌, ◌↔◌, ◌++◌, ◌∷◌, false, IsNone, IfSome, position};
ghost use Rattle.std.specs.List.{list_any};
ghost use Rattle.event_rules.specs.Lines.{begins_with};

fn find_byte(text: &[u8], byte: u8) -> Option<usize>
    ensures { result ≡ position (λ b. b == byte) text.now }
{
    text.iter().position(|b| *b == byte)
}

/// What stands before the first such byte of a text, and what stands behind it; none exactly where
/// the text has no such byte.
pub fn cut_at(text: &[u8], byte: u8) -> Option<(&[u8], &[u8])>
    ensures none { IsNone result ↔ (list_any (λ b. b == byte) text.now ≡ false) }
    ensures whole { IfSome result (λ p. text.now ≡ p.0.now ++ byte ∷ p.1.now) }
    ensures first { IfSome result (λ p. list_any (λ b. b == byte) p.0.now ≡ false) }
{
    let end = find_byte(text, byte)?;
    Some((&text[..end], &text[end + 1..]))
}

/// Whether a text begins with this byte.
pub(crate) fn begins_with_byte(text: &[u8], byte: u8) -> bool
    ensures { result ≡ begins_with byte text.now }
{
    text.first().is_some_and(|first| *first == byte)
}
