//! A replay over a shelf and a sink.
ghost use Rattle.std.specs.Prelude.{◌≡◌, ◌≤◌, List, Some, OnOk, IsErrOf};
ghost use Rattle.std.specs.Io.KnownBytes.{Appends};
ghost use Rattle.grid_model.specs.declared.history.Event.{Event};
ghost use Rattle.outage_ports.specs.Bytes.{AppendsPrefix};
ghost use Rattle.outage_engine.specs.Engined.{IsEngineAfter, IsEngine};
ghost use Rattle.command_words.specs.Forms.{Replay};
ghost use Rattle.command_words.specs.Seen.{places_view};
ghost use Rattle.run_rules.specs.Faults.{TellsFaults};
ghost use Rattle.run_rules.specs.Files.{most_event_lines};
ghost use Rattle.run_rules.specs.Told.{report_after};
ghost use Rattle.run_rules.specs.Run.{run_of, IsSilent};
ghost use Rattle.run_rules.specs.Ends.{IsEnd};
ghost use Rattle.line_entries.specs.declared.fault.PutFault.TheVariants.{Write};

use command_words::{Places, Wish};
use engine_run::{Ran, run_engine, status_after};
use history_rules::lines_of_limit;
use outage_ports::{Shelf, Sink};
use replay_laws::{bounds_are_shown, run_is_told};
use report_text::{PutFault, put_bounds_part, put_report};
use run_rules::Status;
use std::alloc::Global;

// Writes what stands behind the entries: the report, and where they are asked for the bounds that
// show the least cost.
fn put_rest<K: Sink>(alloc: Global, out: &mut K, ran: &Ran, wish: Wish) -> Result<(), PutFault>
    requires engine { IsEngine ran.now.engine }
    requires few { ran.now.engine.field.applied ≤ most_event_lines }
    ensures whole { OnOk result ((h : List Event) → IsEngineAfter h ran.now.engine
        → Appends (K.written out.old) (K.written out.new)
        (report_after ran.now.engine.grid wish ran.now.refused h)) }
    ensures part { (h : List Event) → IsEngineAfter h ran.now.engine
        → AppendsPrefix (K.written out.old) (K.written out.new)
        (report_after ran.now.engine.grid wish ran.now.refused h) }
    ensures out { TellsFaults (K.faults out.old) (K.faults out.new) (IsErrOf result Write) }
{
    put_report(alloc, out, &ran.engine, ran.refused, wish.period)?;
    if wish.with_bounds {
        put_bounds_part(alloc, out, &ran.engine)?;
    }
    Ok(())
}

// Hands on what is written, where that is wished.
fn hand_on<K: Sink>(out: &mut K, at_once: bool) -> Result<(), PutFault>
    ensures same { K.written out.new ≡ K.written out.old }
    ensures out { TellsFaults (K.faults out.old) (K.faults out.new) (IsErrOf result Write) }
{
    if at_once && out.flush().is_err() {
        return Err(PutFault::Write);
    }
    Ok(())
}

// Writes the rest, and hands all of it on where that is wished.
fn end_output<K: Sink>(alloc: Global, out: &mut K, ran: &Ran, wish: Wish) -> Result<(), PutFault>
    requires engine { IsEngine ran.now.engine }
    requires few { ran.now.engine.field.applied ≤ most_event_lines }
    ensures whole { OnOk result ((h : List Event) → IsEngineAfter h ran.now.engine
        → Appends (K.written out.old) (K.written out.new)
        (report_after ran.now.engine.grid wish ran.now.refused h)) }
    ensures part { (h : List Event) → IsEngineAfter h ran.now.engine
        → AppendsPrefix (K.written out.old) (K.written out.new)
        (report_after ran.now.engine.grid wish ran.now.refused h) }
    ensures out { TellsFaults (K.faults out.old) (K.faults out.new) (IsErrOf result Write) }
{
    put_rest(alloc, out, ran, wish)?;
    hand_on(out, wish.at_once)
}

/// Reads the network and the events, and writes the replay. Where it is wished, what each line prints
/// is handed on at once, and so is the report.
pub fn run_replay<S: Shelf, K: Sink>(
    alloc: Global,
    places: Places<'_>,
    wish: Wish,
    shelf: &mut S,
    out: &mut K,
) -> Status
    requires net { S.allows places.net.now }
    requires events { S.allows places.events.now }
    ensures shelf { TellsFaults (S.faults shelf.old) (S.faults shelf.new)
        (result ≡ Status.ReadFault) }
    ensures out { TellsFaults (K.faults out.old) (K.faults out.new) (result ≡ Status.WriteFault) }
    ensures idle { IsSilent (Some (Replay (places_view places.entry) wish)) result
        → out.new ≡ out.old }
    ensures ended { IsEnd (run_of (S.files shelf.old) (S.left shelf.old) (S.left shelf.new)
        (K.written out.old) (K.written out.new)
        (Some (Replay (places_view places.entry) wish))) result }
{
    run_is_told();
    bounds_are_shown();
    lines_of_limit();
    let ran = match run_engine(alloc, places, wish.at_once, shelf, out) {
        Ok(ran) => ran,
        Err(status) => return status,
    };
    status_after(end_output(alloc, out, &ran, wish))
}
