//! A row of an entry.
ghost use Rattle.std.specs.Prelude.{◌++◌, ◌∷◌, [], decimal};
ghost use Rattle.event_rules.specs.Rows.{row};
ghost use Rattle.line_entries.specs.Putting.{DidPut};

use itoa::Buffer;
use outage_ports::{Failed, Sink, put_all};

// Writes a text.
fn put_text<K: Sink>(out: &mut K, text: &[u8]) -> Result<(), Failed>
    ensures { DidPut (K.written out.old) (K.written out.new) (K.faults out.old) (K.faults out.new)
        result text.now }
{
    put_all(out, text)
}

// Writes a text and a comma.
fn put_field<K: Sink>(out: &mut K, text: &[u8]) -> Result<(), Failed>
    ensures { DidPut (K.written out.old) (K.written out.new) (K.faults out.old) (K.faults out.new)
        result (text.now ++ 44 ∷ []) }
{
    put_text(out, text)?;
    put_text(out, b",")
}

// Writes a text and the end of a line.
fn put_last<K: Sink>(out: &mut K, text: &[u8]) -> Result<(), Failed>
    ensures { DidPut (K.written out.old) (K.written out.new) (K.faults out.old) (K.faults out.new)
        result (text.now ++ 10 ∷ []) }
{
    put_text(out, text)?;
    put_text(out, b"\n")
}

/// Writes a row of a word, the number of a line and one more word.
pub(crate) fn put_row<K: Sink>(
    out: &mut K,
    word: &[u8],
    line: u32,
    last: &[u8],
) -> Result<(), Failed>
    ensures { DidPut (K.written out.old) (K.written out.new) (K.faults out.old) (K.faults out.new)
        result (row (word.now ∷ decimal line ∷ last.now ∷ [])) }
{
    let mut digits = Buffer::new();
    put_field(out, word)?;
    put_field(out, digits.format(line).as_bytes())?;
    put_last(out, last)
}
