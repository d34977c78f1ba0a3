//! Laws of lines, decimals and times.
ghost use Rattle.line_text.specs.Laws.{LinesFromParts, DecimalIsRead, DecimalHasOneSpelling, StampHasOneSpelling};

/// The lines that end at the bytes of a text and with it are the lines of the text.
pub fn lines_from_parts()
    ensures { LinesFromParts }
{}

/// A number is read as it was printed.
pub fn decimal_is_read()
    ensures { DecimalIsRead }
{}

/// A text that is read as a number is what is printed of that number.
pub fn decimal_has_one_spelling()
    ensures { DecimalHasOneSpelling }
{}

/// Two texts that are read as the same second are equal.
pub fn stamp_has_one_spelling()
    ensures { StampHasOneSpelling }
{}
