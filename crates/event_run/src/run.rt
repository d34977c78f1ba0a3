//! A run over the bytes of an event text.
ghost use Rattle.std.specs.Prelude.{◌≤◌, ◌+◌, ◌++◌, [], ℕ, List, Option, length, IsErrOf};
ghost use Rattle.event_rules.specs.Lines.{lines};
ghost use Rattle.outage_engine.specs.Engined.{Engined, IsEngineAfter};
ghost use Rattle.grid_model.specs.Parts.{Parts};
ghost use Rattle.event_run.specs.Pieces.{GoesOn, HasRead, HasReadSome, LeadsAmong, LeadsTo};

use crate::reading::EventsStop;
use crate::taken::Taken;
use line_text::{LineBlock, LineCutter, lines_from_parts};
use outage_engine::Engine;
use outage_ports::Sink;
use std::alloc::Global;

/// What is kept of an event text: the part behind its last LF, and what was taken before it. The
/// lines that end in a piece are held together while they are taken.
#[derive(Drop)]
pub(crate) struct Run {
    pub(crate) cutter: LineCutter,
    pub(crate) block: LineBlock,
    pub(crate) taken: Taken,
    /// Whether the entries of each line are written and handed on before the next is taken.
    pub(crate) at_once: bool,
}

impl Run {
    /// A run before the first byte.
    pub(crate) fn new(alloc: Global, at_once: bool) -> Run
        ensures { (now : Option (List ℕ)) (e : Engined) → IsEngineAfter [] e → HasRead [] now now e.grid result e }
    {
        Run {
            cutter: LineCutter::new(),
            block: LineBlock::new(alloc),
            taken: Taken::new(alloc),
            at_once,
        }
    }

    /// Takes the next bytes, of at most 1,073,741,824 in all, and writes the entries of the lines
    /// that end in them. It stops before a line that is one more than may count.
    #[tactic(none)]
    pub(crate) fn take_piece<K: Sink>(
        &mut self,
        alloc: Global,
        engine: &mut Engine,
        piece: &[u8],
        out: &mut K,
    ) -> Result<(), EventsStop>
        requires read { HasReadSome (K.written out.old) self.old engine.old }
        requires room { self.old.taken.number + length piece.now ≤ 1_073_741_824 }
        ensures leads { (bytes : List ℕ) (before : Option (List ℕ)) (p : Parts) → HasRead bytes before (K.written out.old) p self.old engine.old
            → LeadsTo (bytes ++ piece.now) before (K.written out.new) p self.new engine.new result }
        ensures goes { GoesOn engine.old engine.new (K.faults out.old) (K.faults out.new) (IsErrOf result EventsStop.WriteFailed) }
    {
        self.block.clear();
        if self.block.take_piece(&mut self.cutter, piece).is_err() {
            return Err(EventsStop::Memory);
        }
        let mut lines = self.block.reader(alloc);
        self.taken.take_lines(engine, &mut lines, out, self.at_once)
    }

    /// Takes the end of the text, with which a last line may end, and writes its entries.
    #[tactic(none)]
    pub(crate) fn end<K: Sink>(
        &mut self,
        alloc: Global,
        engine: &mut Engine,
        out: &mut K,
    ) -> Result<(), EventsStop>
        requires read { HasReadSome (K.written out.old) self.old engine.old }
        requires room { self.old.taken.number ≤ 1_073_741_824 }
        ensures leads { (bytes : List ℕ) (before : Option (List ℕ)) (p : Parts) → HasRead bytes before (K.written out.old) p self.old engine.old
            → LeadsAmong (lines bytes) before (K.written out.new) p self.new.taken engine.new result }
        ensures goes { GoesOn engine.old engine.new (K.faults out.old) (K.faults out.new) (IsErrOf result EventsStop.WriteFailed) }
    {
        lines_from_parts();
        self.block.clear();
        if self.block.take_end(&mut self.cutter).is_err() {
            return Err(EventsStop::Memory);
        }
        let mut lines = self.block.reader(alloc);
        self.taken.take_lines(engine, &mut lines, out, self.at_once)
    }
}
