//! Reading the lines of an event text.
ghost use Rattle.std.specs.Prelude.{◌≡◌, ◌↔◌, ◌≤◌, ℕ, List, true, None, Some, Ok, Err, IfOk, IfSome};
ghost use Rattle.grid_model.specs.declared.history.Event.{Event};
ghost use Rattle.event_rules.specs.declared.read_rule.ReadRule.{ReadRule};
ghost use Rattle.event_rules.specs.Lines.{is_skipped};
ghost use Rattle.event_rules.specs.Fields.{between_commas};
ghost use Rattle.line_text.specs.LineSorts.{IsRow};
ghost use Rattle.event_rules.specs.EventLines as lines;
ghost use Rattle.event_reader.specs.Reading.{IsReading};
ghost use Rattle.event_reader.specs.Refusals.{refusal_by};
ghost use Rattle.event_reader.specs.Reports.{shape_view, shape_result};

use crate::parts::find_what;
use crate::refusal::ReadRefusal;
use crate::reports::{Report, detailed_report, lone_report, named_report};
use event_rules::ReadRule;
use grid_model::{Event, Grid};
use line_text::{MOST_LINE, RowFields, fields, is_skipped_line, read_stamp};
use std::alloc::Global;

// The event of a report and of the text of its time.
fn event_of_report(grid: &Grid, time: &[u8], report: Report<'_>) -> Result<Event, ReadRule>
    ensures event { result ≡ lines.event_of_shape grid.now time.now (Ok (shape_view report.entry)) }
    ensures bound { IfOk result (λ e. e.time.0 ≤ 253_402_300_799) }
{
    let time = read_stamp(time).ok_or(ReadRule::BadTime)?;
    let what = find_what(grid, report)?;
    Ok(Event { time, what })
}

// The report of a word and of the fields behind it.
fn report_of<'a>(word: &[u8], mut rest: RowFields<'a>) -> Result<Report<'a>, ReadRule>
    ensures { shape_result result ≡ lines.shape_of word.now rest.entry }
{
    let name = rest.next();
    let detail = rest.next();
    if !rest.is_at_end() {
        return Err(ReadRule::BadFields);
    }
    match (name, detail) {
        (None, _) => lone_report(word),
        (Some(name), None) => named_report(word, name),
        (Some(name), Some(detail)) => detailed_report(word, name, detail),
    }
}

// The event of the fields of a line.
fn event_of_fields(grid: &Grid, mut fields: RowFields<'_>) -> Result<Event, ReadRule>
    ensures event { result ≡ lines.event_of_fields grid.now fields.entry }
    ensures bound { IfOk result (λ e. e.time.0 ≤ 253_402_300_799) }
{
    let time = fields.next().ok_or(ReadRule::BadFields)?;
    let word = fields.next().ok_or(ReadRule::BadFields)?;
    let report = report_of(word, fields)?;
    event_of_report(grid, time, report)
}

/// The event of a row, which has these fields.
pub(crate) fn event_of_row(grid: &Grid, fields: RowFields<'_>) -> Result<Option<Event>, ReadRefusal>
    ensures { (line : List ℕ) → IsRow line → fields.entry ≡ between_commas line → IsReading grid.now line result }
{
    Ok(Some(event_of_fields(grid, fields)?))
}

/// The event that a line says, none where the line is skipped: one that is empty, or that begins
/// with `#` and has at most 512 bytes.
///
/// A line is `TIME,call,METER`, `TIME,gasp,METER`, `TIME,ping,METER,up`, `TIME,ping,METER,down`,
/// `TIME,powerup,METER`, `TIME,confirm,DEVICE,open`, `TIME,confirm,DEVICE,ok`,
/// `TIME,confirm,DEVICE,clear`, `TIME,restore,DEVICE`, `TIME,open,DEVICE`, `TIME,close,DEVICE` or
/// `TIME,clock`, where TIME is `YYYY-MM-DDTHH:MM:SSZ`. Any other is refused by the first rule that it
/// breaks, and `Memory` is want of memory alone.
pub fn read_event(alloc: Global, grid: &Grid, line: &[u8]) -> Result<Option<Event>, ReadRefusal>
    ensures skipped { (result ≡ Ok None) ↔ (is_skipped line.now ≡ true) }
    ensures event { (event : Event) → result ≡ Ok (Some event) → lines.event_reading grid.now line.now ≡ lines.IsEvent event }
    ensures bound { IfOk result (λ found. IfSome found (λ event. event.time.0 ≤ 253_402_300_799)) }
    ensures refused { (rule : ReadRule) → result ≡ Err (refusal_by rule) → lines.event_reading grid.now line.now ≡ lines.IsRefused rule }
{
    if is_skipped_line(line) {
        return Ok(None);
    }
    if line.len() > MOST_LINE {
        return Err(ReadRefusal::TooLong);
    }
    let row = fields(alloc, line)?;
    event_of_row(grid, RowFields::of(&row))
}
