//! The lines that a run has taken.
ghost use Rattle.std.specs.Prelude.{◌≡◌, ◌≢◌, ◌≤◌, ◌<◌, ◌+◌, ◌^◌, ◌++◌, ◌∷◌, [], ℕ, List, Option, length, Ok, Err, OnOk, IsErrOf};
ghost use Rattle.grid_model.specs.Parts.{Parts};
ghost use Rattle.grid_model.specs.declared.history.Event.{Event};
ghost use Rattle.line_text.specs.BlockReading.{AreLeft};
ghost use Rattle.event_reader.specs.Reading.{IsReading};
ghost use Rattle.event_reader.specs.declared.refusal.ReadRefusal.{ReadRefusal};
ghost use Rattle.history_rules.specs.Posed.{IsOfGrid};
ghost use Rattle.history_rules.specs.Output.{refused_row};
ghost use Rattle.history_rules.specs.Report.{refused_in};
ghost use Rattle.history_rules.specs.StampTexts.{last_second};
ghost use Rattle.outage_engine.specs.declared.Applied.{Applied};
ghost use Rattle.outage_engine.specs.Engined.{IsEngine};
ghost use Rattle.line_entries.specs.Entered.{IsLastChange, rule_of};
ghost use Rattle.line_entries.specs.Putting.{DidPut};
ghost use Rattle.run_rules.specs.Faults.{TellsFaults};
ghost use Rattle.event_run.specs.Entering.{StaysEngine, IsAnswered, PutsAnswer, Counts, TakesLine, IsEventTaken};
ghost use Rattle.event_run.specs.Pieces.{HasTaken, HasTakenSome, HasWritten, HasWrittenSome, HasPut, GoesOn, TakesNext, Writes, Enters, LeadsNext, LeadsAmong};

use crate::kept::Kept;
use crate::reading::EventsStop;
use crate::unread::rule_in;
use event_reader::{ReadRefusal, next_event};
use grid_model::{Event, Refusal};
use history_rules::{refused_are_the_rest, run_of_parts};
use line_entries::{LineRule, PutFault, applied_is_last_change, put_changes, put_refused};
use line_text::BlockReader;
use outage_engine::{Applied, Engine};
use outage_ports::{Failed, Sink, put_all};
use std::alloc::{AllocError, Global};
use std::marker::Brand;
use std::sync::ledger::{Blank, Ledger};
use subtree_costs::Steps;

/// The greatest number of event lines that aren't skipped.
pub(crate) const MOST_EVENT_LINES: u32 = 2_000_000;

/// Why a run stops at a line.
#[derive(Clone, Copy)]
pub(crate) enum LineStop {
    /// It is one more than may count.
    TooMany,
    /// Memory ran out.
    Memory,
}

impl From<AllocError> for LineStop {
    ghost use Rattle.std.specs.Prelude.{◌≡◌};
    ghost use Rattle.event_run.specs.declared.taken.LineStop.TheVariants.{Memory};

    ghost from_gives = { λ _ stop. stop ≡ Memory };

    fn from(_: AllocError) -> LineStop {
        LineStop::Memory
    }
}

// What is kept in memory fails for want of it alone.
impl From<PutFault> for LineStop {
    ghost use Rattle.std.specs.Prelude.{◌≡◌};
    ghost use Rattle.event_run.specs.declared.taken.LineStop.TheVariants.{Memory};

    ghost from_gives = { λ _ stop. stop ≡ Memory };

    fn from(_: PutFault) -> LineStop {
        LineStop::Memory
    }
}

/// The number of lines so far, of those that aren't skipped, and the entries that aren't written yet.
#[derive(Drop)]
pub(crate) struct Taken {
    pub(crate) number: u32,
    pub(crate) counted: u32,
    pub(crate) entries: Kept,
}

// Applies an event with a counter of its own.
fn apply_event<L: Ledger>(
    engine: &mut Engine,
    event: Event,
    blank: Blank,
) -> Result<Applied, Refusal>
    requires name { blank.name ≡ L.name }
    requires parts { blank.parts ≡ L.parts }
    requires some { 0 < blank.parts }
    requires of_grid { IsOfGrid engine.old.grid event.what }
    requires range { event.time.0 ≤ last_second }
    requires room { engine.old.field.applied < 2 ^ 32 }
    requires spare { length engine.old.grid.meters ≤ engine.old.ledger.spare }
    ensures { IsAnswered engine.old engine.new event result }
{
    applied_is_last_change();
    let mut steps = Steps::<L>::new(blank);
    engine.apply(event, &mut steps)
}

// Keeps the entry of an event that an engine answered so.
#[tactic(none)]
fn put_answer(
    entries: &mut Kept,
    engine: &Engine,
    line: u32,
    answer: Result<Applied, Refusal>,
) -> Result<(), PutFault>
    requires last { (applied : Applied) → answer ≡ Ok applied → (h : List Event) × (event : Event) × IsLastChange h event applied engine.now }
    ensures { OnOk result (PutsAnswer line engine.now entries.old.bytes.items entries.new.bytes.items answer) }
{
    match answer {
        Ok(applied) => put_changes(entries, engine, line, applied),
        Err(rule) => put_refused(entries, line, LineRule::Unapplied(rule)),
    }
}

// Writes bytes, and at once hands them on.
fn put_bytes<K: Sink>(out: &mut K, bytes: &[u8], at_once: bool) -> Result<(), Failed>
    ensures { DidPut (K.written out.old) (K.written out.new) (K.faults out.old) (K.faults out.new) result bytes.now }
{
    put_all(out, bytes)?;
    if at_once && !bytes.is_empty() {
        return out.flush();
    }
    Ok(())
}

impl Taken {
    /// No lines.
    pub(crate) fn new(alloc: Global) -> Taken
        ensures number { result.number ≡ 0 }
        ensures counted { result.counted ≡ 0 }
        ensures entries { result.entries.bytes.items ≡ [] }
    {
        Taken {
            number: 0,
            counted: 0,
            entries: Kept::new(alloc),
        }
    }

    /// How many of the lines were refused, whose events the engine has taken: those that count and
    /// whose event wasn't applied.
    pub(crate) fn refused(&self, engine: &Engine) -> u64
        requires { HasTakenSome self.now engine.now }
        ensures { (lines : List (List ℕ)) (written : List ℕ) → HasTaken lines written self.now engine.now → result ≡ refused_in engine.now.grid [] lines }
    {
        refused_are_the_rest();
        u64::from(self.counted) - engine.field().applied()
    }

    // Numbers and counts the next line, which isn't skipped.
    fn count(&mut self) -> Result<(), LineStop>
        requires room { self.old.number < 4_294_967_295 }
        ensures { Counts self.old self.new result }
    {
        if self.counted >= MOST_EVENT_LINES {
            return Err(LineStop::TooMany);
        }
        self.number += 1;
        self.counted += 1;
        Ok(())
    }

    // Takes a line that is refused.
    #[tactic(none)]
    fn take_refused(&mut self, rule: LineRule) -> Result<(), LineStop>
        requires room { self.old.number < 4_294_967_295 }
        ensures { TakesLine self.old self.new (self.new.entries.bytes.items ≡ self.old.entries.bytes.items ++ refused_row (self.old.number + 1) (rule_of rule)) result }
    {
        self.count()?;
        put_refused(&mut self.entries, self.number, rule)?;
        Ok(())
    }

    // Takes the event of a line.
    #[tactic(none)]
    fn take_event(&mut self, engine: &mut Engine, event: Event) -> Result<(), LineStop>
        requires engine { IsEngine engine.old }
        requires of_grid { IsOfGrid engine.old.grid event.what }
        requires range { event.time.0 ≤ last_second }
        requires applied { engine.old.field.applied < 2_000_001 }
        requires room { self.old.number < 4_294_967_295 }
        ensures takes { TakesLine self.old self.new (IsEventTaken engine.old engine.new event self.old self.new) result }
        ensures stays { StaysEngine engine.old engine.new }
    {
        self.count()?;
        engine.reserve()?;
        let answer = apply_event::<Brand>(engine, event, Blank::new(1));
        put_answer(&mut self.entries, engine, self.number, answer)?;
        Ok(())
    }

    // Takes what was read of a line.
    #[tactic(none)]
    fn take_read(
        &mut self,
        engine: &mut Engine,
        read: Result<Option<Event>, ReadRefusal>,
    ) -> Result<(), LineStop>
        requires taken { HasTakenSome self.old engine.old }
        requires read { (line : List ℕ) × IsReading engine.old.grid line read }
        requires room { self.old.number < 4_294_967_295 }
        ensures takes { (lines : List (List ℕ)) (line written : List ℕ) → IsReading engine.old.grid line read → HasTaken lines written self.old engine.old → TakesNext lines line written self.old self.new engine.new result }
        ensures memory { OnOk result (read ≢ Err ReadRefusal.Memory) }
        ensures stays { StaysEngine engine.old engine.new }
    {
        run_of_parts();
        match read {
            Ok(None) => {
                self.number += 1;
                Ok(())
            }
            Ok(Some(event)) => self.take_event(engine, event),
            Err(refusal) => match rule_in(refusal) {
                Some(rule) => self.take_refused(LineRule::Unread(rule)),
                None => Err(LineStop::Memory),
            },
        }
    }

    // Writes the entries that are kept. At once, they are handed on too.
    #[tactic(none)]
    fn write_entries<K: Sink>(&mut self, out: &mut K, at_once: bool) -> Result<(), EventsStop>
        ensures writes { Writes (K.written out.old) (K.written out.new) self.old self.new result }
        ensures faults { TellsFaults (K.faults out.old) (K.faults out.new) (IsErrOf result EventsStop.WriteFailed) }
    {
        if put_bytes(out, &self.entries.bytes, at_once).is_err() {
            return Err(EventsStop::WriteFailed);
        }
        self.entries.clear();
        Ok(())
    }

    // Writes the entries that are kept, but for those of a line for which memory ran out.
    fn put_entries<K: Sink>(
        &mut self,
        out: &mut K,
        answer: Result<(), LineStop>,
        at_once: bool,
    ) -> Result<(), EventsStop>
        ensures entered { Enters (K.written out.old) (K.written out.new) self.old self.new answer result }
        ensures faults { TellsFaults (K.faults out.old) (K.faults out.new) (IsErrOf result EventsStop.WriteFailed) }
    {
        match answer {
            Ok(()) => self.write_entries(out, at_once),
            Err(LineStop::TooMany) => {
                self.write_entries(out, at_once)?;
                Err(EventsStop::TooManyLines)
            }
            Err(LineStop::Memory) => Err(EventsStop::Memory),
        }
    }

    // Takes what was read of a line, and at once writes its entries. Where it stops at the line, it
    // writes those that are kept.
    #[tactic(none)]
    fn take_next<K: Sink>(
        &mut self,
        engine: &mut Engine,
        read: Result<Option<Event>, ReadRefusal>,
        out: &mut K,
        at_once: bool,
    ) -> Result<(), EventsStop>
        requires taken { HasTakenSome self.old engine.old }
        requires read { (line : List ℕ) × IsReading engine.old.grid line read }
        requires room { self.old.number < 4_294_967_295 }
        ensures leads { (lines : List (List ℕ)) (line : List ℕ) (before : Option (List ℕ)) → IsReading engine.old.grid line read → HasPut lines before (K.written out.old) self.old engine.old
            → LeadsNext (lines ++ line ∷ []) before (K.written out.new) engine.old.grid self.new engine.new result }
        ensures memory { OnOk result (read ≢ Err ReadRefusal.Memory) }
        ensures goes { GoesOn engine.old engine.new (K.faults out.old) (K.faults out.new) (IsErrOf result EventsStop.WriteFailed) }
    {
        let answer = self.take_read(engine, read);
        if at_once || answer.is_err() {
            return self.put_entries(out, answer, at_once);
        }
        Ok(())
    }

    /// Takes the lines of a block, and writes their entries: at once those of each line before the
    /// next is taken, and otherwise all of them together. It stops before a line that is one more
    /// than may count.
    pub(crate) fn take_lines<K: Sink>(
        &mut self,
        engine: &mut Engine,
        lines: &mut BlockReader<'_>,
        out: &mut K,
        at_once: bool,
    ) -> Result<(), EventsStop>
        requires taken { HasWrittenSome (K.written out.old) self.old engine.old }
        requires left { (all : List (List ℕ)) × AreLeft lines.old all × (self.old.number + length all ≤ 4_294_967_294) }
        ensures leads { (sofar all : List (List ℕ)) (before : Option (List ℕ)) (p : Parts) → AreLeft lines.old all → HasWritten sofar before (K.written out.old) p self.old engine.old
            → LeadsAmong (sofar ++ all) before (K.written out.new) p self.new engine.new result }
        ensures goes { GoesOn engine.old engine.new (K.faults out.old) (K.faults out.new) (IsErrOf result EventsStop.WriteFailed) }
    {
        'lines: while let Some(read) = next_event(lines, engine.grid()) {
            self.take_next(engine, read, out, at_once)?;
        }
        self.put_entries(out, Ok(()), at_once)
    }
}
