//! The text of one line's entry.
ghost use Rattle.std.specs.Prelude.{◌≡◌, ◌≤◌, ◌<◌, ◌++◌, ◌∷◌, List, true, false, length, All, OnOk, OnErr, IsErrOf, codes};
ghost use Rattle.std.specs.Io.KnownBytes.{Appends};
ghost use Rattle.grid_model.specs.declared.history.Event.{Event};
ghost use Rattle.outage_ports.specs.Bytes.{AppendsPrefix};
ghost use Rattle.outage_ports.specs.Causes.{Rose};
ghost use Rattle.history_rules.specs.Output.{read_rule_word, refusal_word, rule_word, refused_row, cost_row, changes};
ghost use Rattle.line_entries.specs.Putting.{DidPut};
ghost use Rattle.line_entries.specs.Entered.{IsLastChange, AppliedIsLastChange, rule_of, device_row, device_rows};
ghost use Rattle.line_entries.specs.declared.fault.PutFault.TheVariants.{Write};

use crate::fault::{PutFault, fault_of};
use crate::rows::put_row;
use bound_table::{ReportWord, text_of};
use event_rules::ReadRule;
use grid_model::{DeviceId, Refusal};
use itoa::Buffer;
use outage_engine::{Applied, Engine};
use outage_ports::{Failed, Sink};
use word_tables::{place_of, rule_words};

/// The rule by which a line is refused.
#[derive(Clone, Copy)]
pub enum LineRule {
    /// The line says no event.
    Unread(ReadRule),
    /// Its event may not follow the ones before it.
    Unapplied(Refusal),
}

// The word of a rule by which a line says no event.
fn word_of_reading(rule: ReadRule) -> &'static [u8]
    ensures { result.now ≡ read_rule_word rule }
{
    let place = place_of!(rule;
        ReadRule::TooLong,
        ReadRule::BadFields,
        ReadRule::BadWord,
        ReadRule::BadTime,
        ReadRule::BadName,
        ReadRule::UnknownMeter,
        ReadRule::UnknownDevice,
    );
    rule_words().word(place).as_bytes()
}

// The word of a rule by which an event isn't applied.
fn word_of_refusal(rule: Refusal) -> &'static [u8]
    ensures { result.now ≡ refusal_word rule }
{
    let place = place_of!(rule; Refusal::Backwards, Refusal::NotClosed, Refusal::Loop);
    rule_words().word(7 + place).as_bytes()
}

// The word of a rule.
fn word_of(rule: LineRule) -> &'static [u8]
    ensures { result.now ≡ rule_word (rule_of rule) }
{
    match rule {
        LineRule::Unread(rule) => word_of_reading(rule),
        LineRule::Unapplied(rule) => word_of_refusal(rule),
    }
}

// Writes a row of a device, where it was opened before a change, or where it wasn't.
fn put_device<K: Sink>(
    out: &mut K,
    word: &[u8],
    line: u32,
    engine: &Engine,
    was_opened: bool,
    device: DeviceId,
) -> Result<(), Failed>
    requires each { length engine.now.judged.opened ≡ length engine.now.grid.devices }
    requires known { device.0 < length engine.now.grid.devices }
    ensures { DidPut (K.written out.old) (K.written out.new) (K.faults out.old) (K.faults out.new)
        result (device_row engine.now word.now line was_opened device) }
{
    if engine.judged().is_opened(device) == was_opened {
        return Ok(());
    }
    put_row(out, word, line, engine.grid().device(device).name.text())
}

// Writes rows of the devices that changed and were opened before, or weren't.
fn put_devices<K: Sink>(
    out: &mut K,
    word: &[u8],
    line: u32,
    engine: &Engine,
    was_opened: bool,
) -> Result<(), Failed>
    requires each { length engine.now.judged.opened ≡ length engine.now.grid.devices }
    requires known { All (λ d. d.0 < length engine.now.grid.devices) engine.now.judged.changed }
    ensures { DidPut (K.written out.old) (K.written out.new) (K.faults out.old) (K.faults out.new)
        result (device_rows engine.now word.now line was_opened engine.now.judged.changed) }
{
    let changed = engine.judged().changed();
    for device in changed {
        put_device(out, word, line, engine, was_opened, *device)?;
    }
    Ok(())
}

// Writes the least cost after a line, where it isn't the one before.
fn put_cost<K: Sink>(out: &mut K, line: u32, applied: Applied) -> Result<(), Failed>
    ensures { DidPut (K.written out.old) (K.written out.new) (K.faults out.old) (K.faults out.new)
        result (cost_row line applied.cost_before applied.cost_after) }
{
    if applied.cost_before == applied.cost_after {
        return Ok(());
    }
    let mut digits = Buffer::new();
    let cost = digits.format(applied.cost_after).as_bytes();
    put_row(out, text_of(ReportWord::Cost), line, cost)
}

// Writes what changed with a line, by what the engine lists.
fn put_listed<K: Sink>(
    out: &mut K,
    engine: &Engine,
    line: u32,
    applied: Applied,
) -> Result<(), Failed>
    requires each { length engine.now.judged.opened ≡ length engine.now.grid.devices }
    requires known { All (λ d. d.0 < length engine.now.grid.devices) engine.now.judged.changed }
    ensures { DidPut (K.written out.old) (K.written out.new) (K.faults out.old) (K.faults out.new)
        result (device_rows engine.now (codes "leaves") line true engine.now.judged.changed
        ++ (device_rows engine.now (codes "enters") line false engine.now.judged.changed
        ++ cost_row line applied.cost_before applied.cost_after)) }
{
    put_devices(out, text_of(ReportWord::Leaves), line, engine, true)?;
    put_devices(out, text_of(ReportWord::Enters), line, engine, false)?;
    put_cost(out, line, applied)
}

/// Writes the devices that leave the diagnosis with the event of a line and those that enter it, by
/// number, and the least cost where that changes. The event is the last one that was applied, with
/// this answer. Takes no memory of its own; where the sink fails, it has written a prefix.
pub fn put_changes<K: Sink>(
    out: &mut K,
    engine: &Engine,
    line: u32,
    applied: Applied,
) -> Result<(), PutFault>
    requires last { (h : List Event) × (event : Event) × IsLastChange h event applied engine.now }
    ensures whole { OnOk result ((h : List Event) (event : Event)
        → IsLastChange h event applied engine.now
        → Appends (K.written out.old) (K.written out.new)
        (changes engine.now.grid line h (event ∷ h))) }
    ensures part { (h : List Event) (event : Event)
        → IsLastChange h event applied engine.now
        → AppendsPrefix (K.written out.old) (K.written out.new)
        (changes engine.now.grid line h (event ∷ h)) }
    ensures later { K.faults out.old ≤ K.faults out.new }
    ensures failed { IsErrOf result Write → Rose (K.faults out.old) (K.faults out.new) }
    ensures only_failed { K.faults out.old < K.faults out.new → IsErrOf result Write }
    ensures only_write { OnErr result (IsErrOf result Write) }
{
    fault_of(put_listed(out, engine, line, applied))
}

/// Writes that a line is refused, and by which rule. Takes no memory of its own; where the sink
/// fails, it has written a prefix.
pub fn put_refused<K: Sink>(out: &mut K, line: u32, rule: LineRule) -> Result<(), PutFault>
    ensures whole { OnOk result
        (Appends (K.written out.old) (K.written out.new) (refused_row line (rule_of rule))) }
    ensures part { AppendsPrefix (K.written out.old) (K.written out.new)
        (refused_row line (rule_of rule)) }
    ensures later { K.faults out.old ≤ K.faults out.new }
    ensures failed { IsErrOf result Write → Rose (K.faults out.old) (K.faults out.new) }
    ensures only_failed { K.faults out.old < K.faults out.new → IsErrOf result Write }
    ensures only_write { OnErr result (IsErrOf result Write) }
{
    fault_of(put_row(out, text_of(ReportWord::Refused), line, word_of(rule)))
}

/// An event that an engine applies is its last change, with the answer that it gave.
pub fn applied_is_last_change()
    ensures { AppliedIsLastChange }
{}
