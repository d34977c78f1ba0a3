//! The check of a report over a shelf and a sink.
ghost use Rattle.std.specs.Prelude.{◌≡◌, List, ℕ, Option, Some, IfOk, IfErr, IsErrOf};
ghost use Rattle.bound_table.specs.Sound.{IsTableOf};
ghost use Rattle.outage_engine.specs.Engined.{IsEngine};
ghost use Rattle.command_words.specs.Forms.{Check};
ghost use Rattle.command_words.specs.Seen.{places_view};
ghost use Rattle.run_rules.specs.Faults.{TellsFaults};
ghost use Rattle.run_rules.specs.Run.{run_of, IsSilent, IsSilentCheck};
ghost use Rattle.run_rules.specs.Ends.{IsEnd};
ghost use Rattle.check_run.specs.Reported.{DidSayBounds, DidJudge, DidFind, Says, IsReportStop};

use crate::verdicts::{Finding, finding_on, status_by};
use bound_table::{BoundFault, Bounds, read_bounds};
use command_words::Places;
use engine_run::{Nowhere, read_limited, run_engine};
use grid_model::Grid;
use outage_engine::Engine;
use outage_ports::{Shelf, Sink, put_all};
use replay_laws::bounds_are_shown;
use run_rules::{Status, Which};
use std::alloc::Global;

/// The greatest number of bytes of a report.
const MOST_REPORT: usize = 268_435_456;

// The bounds of a report.
fn read_report<S: Shelf>(
    alloc: Global,
    grid: &Grid,
    name: &str,
    shelf: &mut S,
) -> Result<Bounds, Status>
    requires allowed { S.allows name.now }
    ensures files { S.files shelf.new ≡ S.files shelf.old }
    ensures bounds { IfOk result (DidSayBounds (S.files shelf.old) (S.left shelf.new)
        name.now grid.now) }
    ensures of_network { IfOk result (IsTableOf grid.now) }
    ensures stopped { IfErr result (IsReportStop (S.files shelf.old) (S.left shelf.old)
        (S.left shelf.new) name.now grid.now) }
    ensures shelf { TellsFaults (S.faults shelf.old) (S.faults shelf.new)
        (IsErrOf result Status.ReadFault) }
{
    let text = read_limited(alloc, shelf, name, MOST_REPORT, Which::ReportBytes)?;
    match read_bounds(alloc, grid, &text) {
        Ok(bounds) => Ok(bounds),
        Err(BoundFault::Refused { line, rule }) => Err(Status::ReportRefused { line, rule }),
        Err(BoundFault::Memory) => Err(Status::Memory),
    }
}

// What is found on the bounds of a report, by the engine after all events.
fn judge_report<S: Shelf>(
    alloc: Global,
    engine: &Engine,
    name: &str,
    shelf: &mut S,
) -> Result<Finding, Status>
    requires allowed { S.allows name.now }
    requires engine { IsEngine engine.now }
    ensures judged { IfOk result (λ found. DidJudge (S.files shelf.old) (S.left shelf.new)
        name.now engine.now found.verdict found.text.items) }
    ensures stopped { IfErr result (IsReportStop (S.files shelf.old) (S.left shelf.old)
        (S.left shelf.new) name.now engine.now.grid) }
    ensures shelf { TellsFaults (S.faults shelf.old) (S.faults shelf.new)
        (IsErrOf result Status.ReadFault) }
{
    let bounds = read_report(alloc, engine.grid(), name, shelf)?;
    match finding_on(alloc, engine, &bounds) {
        Ok(found) => Ok(found),
        Err(_) => Err(Status::Memory),
    }
}

// Reads the network, the events and the report, and finds what its bounds show.
fn find<S: Shelf>(
    alloc: Global,
    places: Places<'_>,
    report: &str,
    shelf: &mut S,
) -> Result<Finding, Status>
    requires net { S.allows places.net.now }
    requires events { S.allows places.events.now }
    requires report { S.allows report.now }
    ensures found { IfOk result (λ found. DidFind (S.files shelf.old) (S.left shelf.new)
        (places_view places.entry) report.now found.verdict found.text.items) }
    ensures stopped { IfErr result (λ status. (out : Option (List ℕ)) → IsEnd (run_of
        (S.files shelf.old) (S.left shelf.old) (S.left shelf.new) out out
        (Some (Check (places_view places.entry) report.now))) status) }
    ensures silent { IfErr result IsSilentCheck }
    ensures shelf { TellsFaults (S.faults shelf.old) (S.faults shelf.new)
        (IsErrOf result Status.ReadFault) }
{
    let ran = run_engine(alloc, places, false, shelf, &mut Nowhere)?;
    judge_report(alloc, &ran.engine, report, shelf)
}

// Writes what was found.
fn say<K: Sink>(out: &mut K, found: &Finding) -> Status
    ensures said { Says (K.written out.old) (K.written out.new) found.now.verdict
        found.now.text.items result }
    ensures out { TellsFaults (K.faults out.old) (K.faults out.new) (result ≡ Status.WriteFault) }
{
    match put_all(out, &found.text) {
        Ok(()) => status_by(found.verdict),
        Err(_) => Status::WriteFault,
    }
}

/// Reads the network, the events and the report, and writes the verdict on its bounds.
pub fn run_check<S: Shelf, K: Sink>(
    alloc: Global,
    places: Places<'_>,
    report: &str,
    shelf: &mut S,
    out: &mut K,
) -> Status
    requires net { S.allows places.net.now }
    requires events { S.allows places.events.now }
    requires report { S.allows report.now }
    ensures shelf { TellsFaults (S.faults shelf.old) (S.faults shelf.new)
        (result ≡ Status.ReadFault) }
    ensures out { TellsFaults (K.faults out.old) (K.faults out.new) (result ≡ Status.WriteFault) }
    ensures idle { IsSilent (Some (Check (places_view places.entry) report.now)) result
        → out.new ≡ out.old }
    ensures ended { IsEnd (run_of (S.files shelf.old) (S.left shelf.old) (S.left shelf.new)
        (K.written out.old) (K.written out.new)
        (Some (Check (places_view places.entry) report.now))) result }
{
    bounds_are_shown();
    match find(alloc, places, report, shelf) {
        Ok(found) => say(out, &found),
        Err(status) => status,
    }
}
