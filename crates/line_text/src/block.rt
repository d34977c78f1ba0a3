//! Lines that are held to be read together.
ghost use Rattle.std.specs.Prelude.{◌≡◌, ◌<◌, ◌++◌, ◌∷◌, [], ℕ, List, length, OnOk, IfOk};
ghost use Rattle.event_rules.specs.Lines.{most_line};
ghost use Rattle.line_text.specs.Blocks.{HoldsLines, HoldsFirst, kept_as};
ghost use Rattle.line_text.specs.BlockReading.{AreLeft, lines_left};

use crate::block_reader::BlockReader;
use crate::lines::next_line;
use crate::sorts::LineSort;
use std::alloc::{AllocError, Global};
use std::marker::Model;

// So many bytes of a text are taken into a block, and the rest of a line.
const BLOCK: usize = 65_536;

/// Lines in their order, of which those with fields are read by one `csv` reader. Its memory is kept
/// for the lines that follow.
#[derive(Drop)]
pub struct LineBlock {
    sorts: Vec<LineSort>,
    // The lines with fields, each with an LF behind it.
    text: Vec<u8>,
}

impl Model for LineBlock {
    ghost use Rattle.line_text.specs.Blocks.{Kept};

    ghost Value = { Kept };

    ghost view = { λ a. record { sorts = a.sorts.items; text = a.text.items } };
}

// Adds what is kept of a line.
fn keep(text: &mut Vec<u8>, sort: LineSort, line: &[u8]) -> Result<(), AllocError>
    ensures { OnOk result (text.new.items ≡ text.old.items ++ kept_as sort line.now) }
{
    if sort == LineSort::Row {
        text.extend_from_slice(line)?;
        text.push(b'\n')?;
    }
    Ok(())
}

impl LineBlock {
    /// No lines.
    pub fn new(alloc: Global) -> LineBlock
        ensures { HoldsLines result [] }
    {
        LineBlock {
            sorts: Vec::new(alloc),
            text: Vec::new(alloc),
        }
    }

    /// Lets go of the lines, and keeps the memory.
    pub fn clear(&mut self)
        ensures { HoldsLines self.new [] }
    {
        self.sorts.clear();
        self.text.clear();
    }

    /// A reader before the first line.
    pub fn reader(&self, alloc: Global) -> BlockReader<'_>
        ensures left { (held : List (List ℕ)) → HoldsLines self.now held → AreLeft result held }
        ensures count { (held : List (List ℕ)) → HoldsLines self.now held → lines_left result ≡ length held }
    {
        BlockReader::of(alloc, self.sorts.as_slice(), self.text.as_slice())
    }

    /// Adds a line, which has no LF behind it. After an error the block is to be cleared.
    pub fn push(&mut self, line: &[u8]) -> Result<(), AllocError>
        ensures { OnOk result ((held : List (List ℕ)) → HoldsLines self.old held → HoldsLines self.new (held ++ line.now ∷ [])) }
    {
        let sort = LineSort::of(line);
        keep(&mut self.text, sort, line)?;
        self.sorts.push(sort)?;
        Ok(())
    }

    /// Adds a line of more than 512 bytes, whichever they are. After an error the block is to be
    /// cleared.
    pub fn push_too_long(&mut self) -> Result<(), AllocError>
        ensures { OnOk result ((held : List (List ℕ)) (line : List ℕ) → most_line < length line → HoldsLines self.old held → HoldsLines self.new (held ++ line ∷ [])) }
    {
        self.sorts.push(LineSort::TooLong)?;
        Ok(())
    }

    /// Holds the first lines of a text in place of those before, so many that they have 65,536 bytes
    /// or are all, and answers what stands behind them.
    pub fn fill<'t>(&mut self, text: &'t [u8]) -> Result<&'t [u8], AllocError>
        ensures held { IfOk result (λ behind. HoldsFirst self.new text.now behind.now) }
        ensures some { IfOk result (λ behind. 0 < length text.now → length behind.now < length text.now) }
    {
        self.clear();
        let mut rest = text;
        'lines: while let Some((line, behind)) = next_line(rest) {
            self.push(line)?;
            rest = behind;
            if text.len() - rest.len() >= BLOCK {
                break;
            }
        }
        Ok(rest)
    }
}
