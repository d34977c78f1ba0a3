//! The run over the events of a file, which are read in pieces and not kept.
ghost use Rattle.std.specs.Prelude.{◌≡◌, ◌≤◌, ◌<◌, ℕ, List, [], Option, true, length, IfOk, IfErr, OnOk, IsErrOf};
ghost use Rattle.grid_model.specs.Parts.{Parts};
ghost use Rattle.outage_engine.specs.Engined.{IsEngineAfter, IsEngine};
ghost use Rattle.run_rules.specs.Faults.{TellsFaults};
ghost use Rattle.run_rules.specs.Files.{most_event_lines};
ghost use Rattle.event_run.specs.Reading.{DidReadAll, Stops};
ghost use Rattle.outage_ports.specs.Bytes.{Files};
ghost use Rattle.event_run.specs.Pieces.{GoesOn};
ghost use Rattle.event_run.specs.Reached.{Reached, HasReachedSome, ReadsOn, Leads, IsLess};

use crate::run::Run;
use history_rules::{lines_of_limit, run_of_parts};
use line_text::lines_from_parts;
use outage_engine::Engine;
use outage_ports::{PIECE, Shelf, Sink};
use std::alloc::Global;

/// Why a run over events stopped before their end.
#[derive(Clone, Copy, Debug, PartialEq, Eq)]
pub enum EventsStop {
    /// The shelf failed.
    ReadFailed,
    /// The sink failed.
    WriteFailed,
    /// There is a line more than may count.
    TooManyLines,
    /// There are more bytes than may be read.
    TooManyBytes,
    /// Memory ran out.
    Memory,
}

/// What comes of one more read.
pub(crate) enum Progress {
    /// The entries of the lines that ended were written, and so many more bytes may be read.
    More { room: usize },
    /// The events are read to their end, and all entries written.
    Ended,
}

/// The greatest number of bytes of the events.
const MOST_EVENTS: usize = 1_073_741_824;

// Reads one more piece, of which so many bytes may be taken, and writes the entries of the lines that
// end in it.
#[tactic(none)]
fn read_more<S: Shelf, K: Sink>(
    alloc: Global,
    shelf: &mut S,
    engine: &mut Engine,
    out: &mut K,
    run: &mut Run,
    piece: &mut [u8],
    room: usize,
) -> Result<Progress, EventsStop>
    requires started { S.started shelf.old ≡ true }
    requires piece { 0 < length piece.old }
    requires reached { HasReachedSome (S.files shelf.old) (S.left shelf.old) (K.written out.old) run.old engine.old room }
    ensures started { OnOk result (S.started shelf.new ≡ true) }
    ensures less { IfOk result (IsLess room) }
    ensures leads { (files : Option Files) (name : List ℕ) (before : Option (List ℕ)) (p : Parts)
        → Reached files (S.files shelf.old) name (S.left shelf.old) before (K.written out.old) p run.old engine.old room
        → Leads files (S.files shelf.new) name (S.left shelf.new) before (K.written out.new) p run.new engine.new result }
    ensures reads { ReadsOn (S.files shelf.old) (S.files shelf.new) (S.faults shelf.old) (S.faults shelf.new) (IsErrOf result EventsStop.ReadFailed) }
    ensures goes { GoesOn engine.old engine.new (K.faults out.old) (K.faults out.new) (IsErrOf result EventsStop.WriteFailed) }
{
    lines_from_parts();
    lines_of_limit();
    run_of_parts();
    let count = match shelf.read(piece) {
        Ok(count) => count,
        Err(_) => return Err(EventsStop::ReadFailed),
    };
    if count == 0 {
        run.end(alloc, engine, out)?;
        return Ok(Progress::Ended);
    }
    run.take_piece(alloc, engine, &piece[..count.min(room)], out)?;
    if count > room {
        return Err(EventsStop::TooManyBytes);
    }
    Ok(Progress::More { room: room - count })
}

/// How many event lines of a file were refused: reads it piece by piece, applies or refuses each
/// event, and writes the entries of the lines that end in a piece before the next is read. At once,
/// the entries of each line are written and handed on before the next line is taken.
#[tactic(none)]
pub fn run_events<S: Shelf, K: Sink>(
    alloc: Global,
    shelf: &mut S,
    name: &str,
    engine: &mut Engine,
    out: &mut K,
    at_once: bool,
) -> Result<u64, EventsStop>
    requires allowed { S.allows name.now }
    requires engine { IsEngineAfter [] engine.old }
    ensures files { S.files shelf.new ≡ S.files shelf.old }
    ensures grid { engine.new.grid ≡ engine.old.grid }
    ensures engine { IsEngine engine.new }
    ensures few { IfOk result (λ _. engine.new.field.applied ≤ most_event_lines) }
    ensures all { IfOk result (DidReadAll (S.files shelf.old) name.now (S.left shelf.new)
        (K.written out.old) (K.written out.new) engine.old.grid engine.new) }
    ensures stopped { IfErr result (Stops (S.files shelf.old) name.now (S.left shelf.old)
        (S.left shelf.new) (K.written out.old) (K.written out.new) engine.old.grid) }
    ensures shelf { TellsFaults (S.faults shelf.old) (S.faults shelf.new) (IsErrOf result EventsStop.ReadFailed) }
    ensures out { TellsFaults (K.faults out.old) (K.faults out.new) (IsErrOf result EventsStop.WriteFailed) }
{
    if shelf.start(name).is_err() {
        return Err(EventsStop::ReadFailed);
    }
    let mut run = Run::new(alloc, at_once);
    let mut piece = [0; PIECE];
    let mut room = MOST_EVENTS;
    'reads: loop {
        match read_more(alloc, shelf, engine, out, &mut run, &mut piece, room)? {
            Progress::More { room: left } => room = left,
            Progress::Ended => return Ok(run.taken.refused(engine)),
        }
    }
}
