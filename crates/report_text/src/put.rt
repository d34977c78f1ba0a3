//! Writing a report.
ghost use Rattle.std.specs.Prelude.{◌≡◌, ◌≤◌, ◌<◌, ℕ, List, OnOk, IfOk, IsErrOf};
ghost use Rattle.std.specs.Io.KnownBytes.{Appends};
ghost use Rattle.grid_model.specs.declared.history.Event.{Event};
ghost use Rattle.outage_ports.specs.Bytes.{AppendsPrefix};
ghost use Rattle.outage_ports.specs.Causes.{Rose};
ghost use Rattle.bound_table.specs.Printed.{bounds_text};
ghost use Rattle.bound_table.specs.Tight.{tight_bounds};
ghost use Rattle.history_rules.specs.Posed.{problem_after};
ghost use Rattle.history_rules.specs.Report.{report_text, summary_text};
ghost use Rattle.outage_engine.specs.Engined.{IsEngineAfter};
ghost use Rattle.line_entries.specs.Putting.{PutsText};
ghost use Rattle.report_text.specs.Rows.{most_applied};
ghost use Rattle.line_entries.specs.declared.fault.PutFault.TheVariants.{Write};

use crate::report::{report_of, summary_of};
use bound_table::put_bounds;
use grid_model::Period;
use line_entries::PutFault;
use outage_engine::Engine;
use outage_ports::{Sink, put_all};
use std::alloc::{AllocError, Global};

// Writes a text that was made, and nothing where there was no memory to make it.
fn put_made<K: Sink>(out: &mut K, made: Result<Vec<u8>, AllocError>) -> Result<(), PutFault>
    ensures { (due : List ℕ) → IfOk made (λ text. text.items ≡ due)
        → PutsText (K.written out.old) (K.written out.new) (K.faults out.old) (K.faults out.new)
        result due }
{
    let Ok(text) = made else {
        return Err(PutFault::Memory);
    };
    match put_all(out, &text) {
        Ok(()) => Ok(()),
        Err(_) => Err(PutFault::Write),
    }
}

/// Writes the report: `report,SECOND` with the second of the last event, `counts,EVENTS,REFUSED`
/// with the number of lines that were refused, `total,COST`, a line for each outage, for each outage
/// in the order of crews, for each meter whose reports the diagnosis contradicts and for each
/// interruption, the three indices of the period, and `end`. Takes its memory before it writes; where
/// the sink fails, it has written a prefix of the report.
pub fn put_report<K: Sink>(
    alloc: Global,
    out: &mut K,
    engine: &Engine,
    refused: u64,
    period: Period,
) -> Result<(), PutFault>
    requires few { engine.now.field.applied ≤ most_applied }
    ensures whole { OnOk result ((h : List Event) → IsEngineAfter h engine.now
        → Appends (K.written out.old) (K.written out.new)
        (report_text engine.now.grid period refused h)) }
    ensures part { (h : List Event) → IsEngineAfter h engine.now
        → AppendsPrefix (K.written out.old) (K.written out.new)
        (report_text engine.now.grid period refused h) }
    ensures later { K.faults out.old ≤ K.faults out.new }
    ensures failed { IsErrOf result Write → Rose (K.faults out.old) (K.faults out.new) }
    ensures only_failed { K.faults out.old < K.faults out.new → IsErrOf result Write }
{
    put_made(out, report_of(alloc, engine, refused, period))
}

/// Writes the report without what it says of single devices and meters, with the indices over all
/// seconds. Takes its memory before it writes; where the sink fails, it has written a prefix of it.
pub fn put_summary<K: Sink>(
    alloc: Global,
    out: &mut K,
    engine: &Engine,
    refused: u64,
) -> Result<(), PutFault>
    requires few { engine.now.field.applied ≤ most_applied }
    ensures whole { OnOk result ((h : List Event) → IsEngineAfter h engine.now
        → Appends (K.written out.old) (K.written out.new)
        (summary_text engine.now.grid refused h)) }
    ensures part { (h : List Event) → IsEngineAfter h engine.now
        → AppendsPrefix (K.written out.old) (K.written out.new)
        (summary_text engine.now.grid refused h) }
    ensures later { K.faults out.old ≤ K.faults out.new }
    ensures failed { IsErrOf result Write → Rose (K.faults out.old) (K.faults out.new) }
    ensures only_failed { K.faults out.old < K.faults out.new → IsErrOf result Write }
{
    put_made(out, summary_of(alloc, engine, refused))
}

// The bounds part of an engine as one text. An error says that memory ran out.
fn bounds_part_of(alloc: Global, engine: &Engine) -> Result<Vec<u8>, AllocError>
    ensures { IfOk result (λ text. (h : List Event) → IsEngineAfter h engine.now
        → text.items
        ≡ bounds_text engine.now.grid (tight_bounds (problem_after engine.now.grid h))) }
{
    let bounds = engine.bounds(alloc)?;
    put_bounds(alloc, engine.grid(), &bounds)
}

/// Writes the bounds part: the lines that show the least cost after all events. Takes its memory
/// before it writes; where the sink fails, it has written a prefix of the part.
pub fn put_bounds_part<K: Sink>(alloc: Global, out: &mut K, engine: &Engine) -> Result<(), PutFault>
    ensures whole { OnOk result ((h : List Event) → IsEngineAfter h engine.now
        → Appends (K.written out.old) (K.written out.new)
        (bounds_text engine.now.grid (tight_bounds (problem_after engine.now.grid h)))) }
    ensures part { (h : List Event) → IsEngineAfter h engine.now
        → AppendsPrefix (K.written out.old) (K.written out.new)
        (bounds_text engine.now.grid (tight_bounds (problem_after engine.now.grid h))) }
    ensures later { K.faults out.old ≤ K.faults out.new }
    ensures failed { IsErrOf result Write → Rose (K.faults out.old) (K.faults out.new) }
    ensures only_failed { K.faults out.old < K.faults out.new → IsErrOf result Write }
{
    put_made(out, bounds_part_of(alloc, engine))
}
