//! Lines cut off a text byte by byte.
ghost use Rattle.std.specs.Prelude.{◌≡◌, ◌<◌, ◌≤◌, ◌++◌, ℕ, List, [], take, length, nat_le, Some, IfSome, IfNone, if◌then◌else◌};
ghost use Rattle.event_rules.specs.Lines.{most_line};
ghost use Rattle.line_text.specs.LineEnds.{without_cr};

use crate::lines::{MOST_LINE, strip_cr};
use std::marker::Model;

// So many bytes of a part are held: those of a line, and a CR that may belong to its end.
const MOST_HELD: usize = MOST_LINE + 1;

/// What ends at a byte of a text, or with the text.
#[derive(Clone, Copy, Debug, PartialEq, Eq)]
pub enum Cut {
    /// No line.
    More,
    /// A line, whose bytes [`LineCutter::line`] gives.
    Line,
    /// A line of more than [`MOST_LINE`] bytes.
    TooLong,
}

/// Cuts a text into its lines, byte by byte, and holds no more than one line.
#[derive(Drop)]
pub struct LineCutter {
    bytes: [u8; MOST_HELD],
    // How many bytes the part behind the last LF has, counted up to one more than are held.
    part: usize,
    // How many bytes the last line had that wasn't too long.
    line: usize,
    last: Cut,
}

impl Model for LineCutter {
    ghost use Rattle.std.specs.Prelude.{◌+◌, ◌≤◌, take};
    ghost use Rattle.event_rules.specs.Lines.{most_line};
    ghost use Rattle.line_text.specs.Cutting.{Cutting, front_held};

    ghost Value = { Cutting };

    ghost view = { λ a. record { part = front_held a.bytes a.part; last = a.last; line = take a.line a.bytes } };

    ghost invariant = { λ a. (a.part ≤ most_line + 2) × (a.line ≤ most_line) };
}

impl LineCutter {
    ghost use Rattle.line_text.specs.Cutting.{IsAtPart, Tells, answer_to, part_with, line_ended, last_line};

    /// A cutter before the first byte of a text.
    pub fn new() -> LineCutter
        ensures begins { IsAtPart result [] }
        ensures last { result.last ≡ Cut.More }
    {
        LineCutter {
            bytes: [0; MOST_HELD],
            part: 0,
            line: 0,
            last: Cut::More,
        }
    }

    // How many bytes the part at hand has without a CR as its last one.
    fn line_length(&self) -> usize
        ensures held { IfSome self.now.part (λ part. result ≡ length (without_cr part)) }
        ensures longer { IfNone self.now.part (most_line < result) }
    {
        match self.bytes.get(..self.part) {
            Some(part) => strip_cr(part).len(),
            None => self.part,
        }
    }

    // Ends the part at hand, of which so many bytes are a line.
    fn cut(&mut self, count: usize) -> Cut
        ensures answer { result ≡ (if nat_le count most_line then Cut.Line else Cut.TooLong) }
        ensures part { self.new.part ≡ Some [] }
        ensures line { IfSome self.old.part (λ part. count ≤ length part → result ≡ Cut.Line → self.new.line ≡ take count part) }
        ensures last { self.new.last ≡ result }
    {
        self.part = 0;
        if count > MOST_LINE {
            self.last = Cut::TooLong;
            return Cut::TooLong;
        }
        self.line = count;
        self.last = Cut::Line;
        Cut::Line
    }

    /// Takes the next byte of the text, and tells which line ends there: what stands between two
    /// LFs, without a CR directly before the second one.
    pub fn push(&mut self, byte: u8) -> Cut
        ensures answer { (part : List ℕ) → IsAtPart self.old part → result ≡ answer_to (line_ended part byte) }
        ensures line { (part : List ℕ) → IsAtPart self.old part → Tells result self.new.line (line_ended part byte) }
        ensures part { (part : List ℕ) → IsAtPart self.old part → IsAtPart self.new (part_with part byte) }
        ensures last { self.new.last ≡ result }
    {
        if byte == b'\n' {
            return self.cut(self.line_length());
        }
        if self.part < MOST_HELD {
            self.bytes[self.part] = byte;
        }
        self.part = (self.part + 1).min(MOST_HELD + 1);
        self.last = Cut::More;
        Cut::More
    }

    /// Takes the next bytes of the text, none of which is an LF: no line ends at them.
    pub fn extend(&mut self, bytes: &[u8])
        ensures part { (part : List ℕ) → IsAtPart self.old part → IsAtPart self.new (part ++ bytes.now) }
        ensures last { self.new.last ≡ Cut.More }
    {
        let start = self.part.min(MOST_HELD);
        let count = bytes.len().min(MOST_HELD - start);
        self.bytes[start..start + count].copy_from_slice(&bytes[..count]);
        self.part = self.part.saturating_add(bytes.len()).min(MOST_HELD + 1);
        self.last = Cut::More;
    }

    /// Ends the text, and tells which line ends with it: the bytes behind the last LF, where there
    /// are some. The next byte begins a new text.
    pub fn end(&mut self) -> Cut
        ensures answer { (part : List ℕ) → IsAtPart self.old part → result ≡ answer_to (last_line part) }
        ensures line { (part : List ℕ) → IsAtPart self.old part → Tells result self.new.line (last_line part) }
        ensures begins { IsAtPart self.new [] }
        ensures last { self.new.last ≡ result }
    {
        if self.part == 0 {
            self.last = Cut::More;
            return Cut::More;
        }
        self.cut(self.part)
    }

    /// The line that the last answer told, without its end. The last answer was [`Cut::Line`].
    pub fn line(&self) -> &[u8]
        requires { self.now.last ≡ Cut.Line }
        ensures { result.now ≡ self.now.line }
    {
        &self.bytes[..self.line]
    }
}
