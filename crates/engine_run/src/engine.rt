//! From the files of a network and its events to the engine after them.
ghost use Rattle.std.specs.Prelude.{◌≡◌, ◌≤◌, [], length, Some, IfOk, IfErr, IsErrOf};
ghost use Rattle.outage_engine.specs.Engined.{IsEngineAfter, IsEngine};
ghost use Rattle.command_words.specs.Forms.{Replay};
ghost use Rattle.command_words.specs.Seen.{places_view};
ghost use Rattle.command_words.specs.declared.words.Wish.{Wish};
ghost use Rattle.run_rules.specs.Faults.{TellsFaults};
ghost use Rattle.grid_reader.specs.Text.{grid_text, IsGrid};
ghost use Rattle.run_rules.specs.Files.{most_network, most_event_lines};
ghost use Rattle.run_rules.specs.Run.{run_of, IsSilentReplay};
ghost use Rattle.run_rules.specs.Ends.{IsEnd};
ghost use Rattle.engine_run.specs.Ended.{DidRun, DidSayNetwork, IsTextStop, IsNetworkStop, IsRunStop};

use crate::limited::read_limited;
use crate::statuses::status_by;
use command_words::Places;
use event_run::run_events;
use grid_reader::{GridFault, read_grid};
use outage_engine::Engine;
use outage_ports::{Shelf, Sink};
use run_rules::{Status, Which};
use std::alloc::Global;

/// The greatest number of bytes of a network.
const MOST_NETWORK: usize = 67_108_864;

/// A run over all events: the engine after them, and how many of their lines were refused.
#[derive(Drop)]
pub struct Ran {
    pub engine: Engine,
    pub refused: u64,
}

/// The engine of a network text, before its first event. The error is the status of a run that ends
/// there.
pub fn engine_over(alloc: Global, network: &[u8]) -> Result<Engine, Status>
    requires size { length network.now ≤ most_network }
    ensures engine { IfOk result (IsEngineAfter []) }
    ensures grid { IfOk result (λ engine. grid_text network.now ≡ IsGrid engine.grid) }
    ensures stopped { IfErr result (IsTextStop network.now) }
{
    let grid = match read_grid(alloc, network) {
        Ok(grid) => grid,
        Err(GridFault::Refused { line, rule }) => return Err(Status::NetworkRefused { line, rule }),
        Err(GridFault::Memory) => return Err(Status::Memory),
    };
    match Engine::new(alloc, grid) {
        Ok(engine) => Ok(engine),
        Err(_) => Err(Status::Memory),
    }
}

// The engine of a network in a file, before its first event.
fn start_engine<S: Shelf>(alloc: Global, name: &str, shelf: &mut S) -> Result<Engine, Status>
    requires allowed { S.allows name.now }
    ensures files { S.files shelf.new ≡ S.files shelf.old }
    ensures engine { IfOk result (IsEngineAfter []) }
    ensures network { IfOk result (λ engine. DidSayNetwork (S.files shelf.old) (S.left shelf.new)
        name.now engine.grid) }
    ensures stopped { IfErr result (IsNetworkStop (S.files shelf.old) (S.left shelf.old)
        (S.left shelf.new) name.now) }
    ensures shelf { TellsFaults (S.faults shelf.old) (S.faults shelf.new)
        (IsErrOf result Status.ReadFault) }
{
    let text = read_limited(alloc, shelf, name, MOST_NETWORK, Which::NetworkBytes)?;
    engine_over(alloc, &text)
}

/// The run over all events: reads the network whole, and then the events in pieces, whose
/// entries it writes; at once, it hands those of each line on. Where it stops before their end, the
/// error is the status of a replay that ends there.
pub fn run_engine<S: Shelf, K: Sink>(
    alloc: Global,
    places: Places<'_>,
    at_once: bool,
    shelf: &mut S,
    out: &mut K,
) -> Result<Ran, Status>
    requires net { S.allows places.net.now }
    requires events { S.allows places.events.now }
    ensures files { S.files shelf.new ≡ S.files shelf.old }
    ensures engine { IfOk result (λ ran. IsEngine ran.engine) }
    ensures few { IfOk result (λ ran. ran.engine.field.applied ≤ most_event_lines) }
    ensures ran { IfOk result (λ ran. DidRun (S.files shelf.old) (places_view places.entry)
        (S.left shelf.new) (K.written out.old) (K.written out.new) ran.engine ran.refused) }
    ensures stopped { IfErr result (λ status. (wish : Wish) →
        IsEnd (run_of (S.files shelf.old) (S.left shelf.old) (S.left shelf.new) (K.written out.old)
        (K.written out.new) (Some (Replay (places_view places.entry) wish))) status) }
    ensures kind { IfErr result IsRunStop }
    ensures idle { IfErr result (λ status. IsSilentReplay status → out.new ≡ out.old) }
    ensures shelf { TellsFaults (S.faults shelf.old) (S.faults shelf.new)
        (IsErrOf result Status.ReadFault) }
    ensures out { TellsFaults (K.faults out.old) (K.faults out.new)
        (IsErrOf result Status.WriteFault) }
{
    let mut engine = start_engine(alloc, places.net, shelf)?;
    match run_events(alloc, shelf, places.events, &mut engine, out, at_once) {
        Ok(refused) => Ok(Ran { engine, refused }),
        Err(stop) => Err(status_by(stop)),
    }
}
