//! The lines that end in a piece of a text.
ghost use Rattle.std.specs.Prelude.{◌≡◌, ◌≤◌, ◌<◌, ◌+◌, ◌++◌, ◌∷◌, ◌==◌, [], false, ℕ, List, length, OnOk, IfOk};
ghost use Rattle.std.specs.List.{list_any};
ghost use Rattle.line_text.specs.Cutting.{IsAtPart, Tells, ended_from, part_from, last_line};
ghost use Rattle.line_text.specs.Blocks.{HoldsLines};

use crate::block::LineBlock;
use crate::cuts::cut_at;
use crate::cutter::{Cut, LineCutter};
use crate::lines::strip_cr;
use std::alloc::AllocError;

impl LineBlock {
    // Adds the line that an answer of a cutter tells, if it tells one.
    fn push_cut(&mut self, cutter: &LineCutter, cut: Cut) -> Result<(), AllocError>
        requires { cutter.now.last ≡ cut }
        ensures { OnOk result ((held ended : List (List ℕ)) → Tells cut cutter.now.line ended → HoldsLines self.old held → HoldsLines self.new (held ++ ended)) }
    {
        match cut {
            Cut::More => Ok(()),
            Cut::Line => self.push(cutter.line()),
            Cut::TooLong => self.push_too_long(),
        }
    }

    // Adds the lines that end in a text, and answers what stands behind the last LF.
    fn push_ended<'t>(&mut self, text: &'t [u8]) -> Result<&'t [u8], AllocError>
        ensures held { IfOk result (λ part. (held : List (List ℕ)) → HoldsLines self.old held → HoldsLines self.new (held ++ ended_from [] text.now)) }
        ensures part { IfOk result (λ part. part.now ≡ part_from [] text.now) }
    {
        let mut rest = text;
        'lines: while let Some((line, behind)) = cut_at(rest, b'\n') {
            self.push(strip_cr(line))?;
            rest = behind;
        }
        Ok(rest)
    }

    /// Adds the lines that end in the next piece of a text, the first of which began with the part
    /// that the cutter has at hand, and gives the cutter the part behind the last LF. After an error
    /// neither is to be used for more of the text.
    pub fn take_piece(&mut self, cutter: &mut LineCutter, piece: &[u8]) -> Result<(), AllocError>
        ensures held { OnOk result ((part : List ℕ) (held : List (List ℕ)) → IsAtPart cutter.old part → HoldsLines self.old held → HoldsLines self.new (held ++ ended_from part piece.now)) }
        ensures part { OnOk result ((part : List ℕ) → IsAtPart cutter.old part → IsAtPart cutter.new (part_from part piece.now)) }
    {
        let Some((front, behind)) = cut_at(piece, b'\n') else {
            cutter.extend(piece);
            return Ok(());
        };
        cutter.extend(front);
        let cut = cutter.push(b'\n');
        self.push_cut(cutter, cut)?;
        let part = self.push_ended(behind)?;
        cutter.extend(part);
        Ok(())
    }

    /// Adds the line that ends with the text: the part that the cutter has at hand, where it isn't
    /// empty. The cutter stands before a new text then.
    pub fn take_end(&mut self, cutter: &mut LineCutter) -> Result<(), AllocError>
        ensures held { OnOk result ((part : List ℕ) (held : List (List ℕ)) → IsAtPart cutter.old part → HoldsLines self.old held → HoldsLines self.new (held ++ last_line part)) }
        ensures begins { OnOk result (IsAtPart cutter.new []) }
    {
        let cut = cutter.end();
        self.push_cut(cutter, cut)
    }
}
