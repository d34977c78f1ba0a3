//! A trial over a sink.
ghost use Rattle.std.specs.Prelude.{◌≡◌, ◌≤◌, length, IfOk, IfErr};
ghost use Rattle.event_rules.specs.Lines.{lines};
ghost use Rattle.history_rules.specs.Run.{counted};
ghost use Rattle.run_rules.specs.Faults.{TellsFaults};
ghost use Rattle.grid_maker.specs.NetworkText.{network_text};
ghost use Rattle.grid_maker.specs.EventText.{event_text};
ghost use Rattle.run_rules.specs.Files.{most_network, most_events, most_event_lines};
ghost use Rattle.run_rules.specs.Trial.{EndsTrial, IsSilentTrial};
ghost use Rattle.engine_run.specs.Ended.{IsTextStop};
ghost use Rattle.trial_run.specs.Made.{RanOver};

use crate::shelf::TextShelf;
use engine_run::{Nowhere, Ran, engine_over, status_after, status_by};
use event_run::run_events;
use grid_maker::{make, storm_has_lines, texts_are_short};
use outage_ports::Sink;
use report_text::put_summary;
use run_rules::Status;
use std::alloc::Global;

// The engine after all events of a text, over the network of another.
fn run_texts(alloc: Global, network: &[u8], events: &[u8]) -> Result<Ran, Status>
    requires network { length network.now ≤ most_network }
    requires events { length events.now ≤ most_events }
    requires few { length (counted (lines events.now)) ≤ most_event_lines }
    ensures few { IfOk result (λ ran. ran.engine.field.applied ≤ most_event_lines) }
    ensures ran { IfOk result (λ ran. RanOver network.now events.now ran.engine ran.refused) }
    ensures stopped { IfErr result (IsTextStop network.now) }
{
    let mut engine = engine_over(alloc, network)?;
    let mut shelf = TextShelf::new(events);
    match run_events(alloc, &mut shelf, "", &mut engine, &mut Nowhere, false) {
        Ok(refused) => Ok(Ran { engine, refused }),
        Err(stop) => Err(status_by(stop)),
    }
}

// The engine after all events that are made for so many feeders.
fn run_made(alloc: Global, feeders: u32) -> Result<Ran, Status>
    requires some { 1 ≤ feeders }
    requires few { feeders ≤ 100 }
    ensures few { IfOk result (λ ran. ran.engine.field.applied ≤ most_event_lines) }
    ensures ran { IfOk result (λ ran. RanOver (network_text feeders) (event_text feeders) ran.engine
        ran.refused) }
    ensures stopped { IfErr result (IsTextStop (network_text feeders)) }
{
    storm_has_lines();
    texts_are_short();
    match make(alloc, feeders) {
        Ok((network, events)) => run_texts(alloc, &network, &events),
        Err(_) => Err(Status::Memory),
    }
}

/// Makes the network and the events of a trial over so many feeders, runs the engine over them as a
/// replay does, and writes the summary of the report.
pub fn run_trial<K: Sink>(alloc: Global, feeders: u32, out: &mut K) -> Status
    requires some { 1 ≤ feeders }
    requires few { feeders ≤ 100 }
    ensures out { TellsFaults (K.faults out.old) (K.faults out.new) (result ≡ Status.WriteFault) }
    ensures idle { IsSilentTrial result → out.new ≡ out.old }
    ensures ended { EndsTrial (K.written out.old) (K.written out.new) feeders result }
{
    let ran = match run_made(alloc, feeders) {
        Ok(ran) => ran,
        Err(status) => return status,
    };
    status_after(put_summary(alloc, out, &ran.engine, ran.refused))
}
