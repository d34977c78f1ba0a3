//! The rows of a report.
ghost use Rattle.std.specs.Prelude.{◌≡◌, ◌<◌, ◌++◌, ◌∷◌, [], length, map, flat_map, OnOk, codes, decimal};
ghost use Rattle.event_rules.specs.Rows.{row};
ghost use Rattle.bound_table.specs.Words.{spelling};
ghost use Rattle.history_rules.specs.Report.{device_word, outage_row, line_row, unexplained_by, index_row};
ghost use Rattle.report_text.specs.Rows.{IsWritable, IsOutageOf, IsLineOf, last_word, first_rows, contradicted};

use crate::words::{name_of, name_or_none, second_of, second_or, second_text, sort_of, value_of};
use bound_table::{ReportWord, text_of};
use evidence::Pull;
use grid_model::{DeviceId, Grid, Line, MeterId, Outage, Stamp};
use itoa::Buffer;
use line_text::Fraction;
use std::alloc::{AllocError, Global};

// A comma and a word.
fn add_word(text: &mut Vec<u8>, word: &[u8]) -> Result<(), AllocError>
    ensures { OnOk result (text.new.items ≡ text.old.items ++ 44 ∷ word.now) }
{
    text.push(b',')?;
    text.extend_from_slice(word)
}

// Words, each behind a comma.
fn add_words(text: &mut Vec<u8>, words: &[&[u8]]) -> Result<(), AllocError>
    ensures { OnOk result (text.new.items ≡ text.old.items ++ flat_map (λ w. 44 ∷ w.now) words.now) }
{
    for word in words {
        add_word(text, word)?;
    }
    Ok(())
}

// A row of a first word and others.
fn add_row(text: &mut Vec<u8>, first: ReportWord, others: &[&[u8]]) -> Result<(), AllocError>
    ensures { OnOk result (text.new.items ≡ text.old.items ++ row (spelling first ∷ map (λ w. w.now) others.now)) }
{
    text.extend_from_slice(text_of(first))?;
    add_words(text, others)?;
    text.push(b'\n')?;
    Ok(())
}

// report,SECOND
fn add_report(text: &mut Vec<u8>, applied: u64, now: Stamp) -> Result<(), AllocError>
    requires { IsWritable now }
    ensures { OnOk result (text.new.items ≡ text.old.items ++ row (codes "report" ∷ last_word applied now ∷ [])) }
{
    let last = second_of((applied != 0).then_some(now));
    add_row(text, ReportWord::Report, &[second_or(&last, b"none")])
}

// counts,EVENTS,REFUSED
fn add_counts(text: &mut Vec<u8>, applied: u64, refused: u64) -> Result<(), AllocError>
    ensures { OnOk result (text.new.items ≡ text.old.items ++ row (codes "counts" ∷ decimal applied ∷ decimal refused ∷ [])) }
{
    let mut first = Buffer::new();
    let mut second = Buffer::new();
    let applied = first.format(applied).as_bytes();
    let refused = second.format(refused).as_bytes();
    add_row(text, ReportWord::Counts, &[applied, refused])
}

// total,COST
fn add_total(text: &mut Vec<u8>, total: u64) -> Result<(), AllocError>
    ensures { OnOk result (text.new.items ≡ text.old.items ++ row (codes "total" ∷ decimal total ∷ [])) }
{
    let mut digits = Buffer::new();
    add_row(text, ReportWord::Total, &[digits.format(total).as_bytes()])
}

/// The rows `report,SECOND` with the second of the last event or `none`, `counts,EVENTS,REFUSED` and
/// `total,COST`.
pub(crate) fn add_first_rows(
    text: &mut Vec<u8>,
    applied: u64,
    now: Stamp,
    refused: u64,
    total: u64,
) -> Result<(), AllocError>
    requires { IsWritable now }
    ensures { OnOk result (text.new.items ≡ text.old.items ++ first_rows applied now refused total) }
{
    add_report(text, applied, now)?;
    add_counts(text, applied, refused)?;
    add_total(text, total)
}

/// outage,DEVICE,ABOVE,METERS,CUSTOMERS,SINCE,SORT
pub(crate) fn add_outage(text: &mut Vec<u8>, grid: &Grid, outage: &Outage) -> Result<(), AllocError>
    requires { IsOutageOf grid.now outage.now }
    ensures { OnOk result (text.new.items ≡ text.old.items ++ outage_row grid.now outage.now) }
{
    let mut meters = Buffer::new();
    let mut customers = Buffer::new();
    let device = grid.device(outage.device);
    let above = name_of(grid, outage.above);
    let since = second_of(outage.since);
    let meters = meters.format(outage.meters).as_bytes();
    let customers = customers.format(outage.customers).as_bytes();
    let device = device.name.text();
    let above = name_or_none(&above);
    let since = second_or(&since, b"none");
    let sort = sort_of(outage.nested);
    add_row(
        text,
        ReportWord::Outage,
        &[device, above, meters, customers, since, sort],
    )
}

// unexplained,METER,WORD,WEIGHT where there is a weight
fn add_weight(
    text: &mut Vec<u8>,
    grid: &Grid,
    meter: MeterId,
    word: &[u8],
    weight: u64,
) -> Result<(), AllocError>
    requires { meter.0 < length grid.now.meters }
    ensures { OnOk result (text.new.items ≡ text.old.items ++ unexplained_by grid.now meter.0 word.now weight) }
{
    if weight == 0 {
        return Ok(());
    }
    let mut digits = Buffer::new();
    let meter = grid.meter(meter);
    let weight = digits.format(weight).as_bytes();
    add_row(
        text,
        ReportWord::Unexplained,
        &[meter.name.text(), word, weight],
    )
}

/// What the reports of a meter weigh that its judgement contradicts: of one that is judged dark its
/// live report, and of another its dark ones.
pub(crate) fn add_contradicted(
    text: &mut Vec<u8>,
    grid: &Grid,
    meter: MeterId,
    is_dark: bool,
    pull: Pull,
) -> Result<(), AllocError>
    requires { meter.0 < length grid.now.meters }
    ensures { OnOk result (text.new.items ≡ text.old.items ++ contradicted grid.now meter.0 is_dark pull) }
{
    if is_dark {
        add_weight(text, grid, meter, b"live", pull.live)
    } else {
        add_weight(text, grid, meter, b"dark", pull.dark)
    }
}

/// line,METER,START,END
pub(crate) fn add_line(text: &mut Vec<u8>, grid: &Grid, line: &Line) -> Result<(), AllocError>
    requires { IsLineOf grid.now line.now }
    ensures { OnOk result (text.new.items ≡ text.old.items ++ line_row grid.now line.now) }
{
    let meter = grid.meter(line.meter);
    let start = second_text(line.start);
    let end = second_of(line.end);
    let words = [meter.name.text(), &start, second_or(&end, b"open")];
    add_row(text, ReportWord::Line, &words)
}

/// crew,K,DEVICE
pub(crate) fn add_crew(
    text: &mut Vec<u8>,
    grid: &Grid,
    number: u64,
    device: DeviceId,
) -> Result<(), AllocError>
    requires { device.0 < length grid.now.devices }
    ensures { OnOk result (text.new.items ≡ text.old.items ++ row (codes "crew" ∷ decimal number ∷ device_word grid.now device.0 ∷ [])) }
{
    let mut digits = Buffer::new();
    let number = digits.format(number).as_bytes();
    let device = grid.device(device);
    add_row(text, ReportWord::Crew, &[number, device.name.text()])
}

/// index,NAME,VALUE
pub(crate) fn add_index(
    alloc: Global,
    text: &mut Vec<u8>,
    name: &[u8],
    value: Option<Fraction>,
) -> Result<(), AllocError>
    ensures { OnOk result (text.new.items ≡ text.old.items ++ index_row name.now value) }
{
    let value = value_of(alloc, value)?;
    add_row(text, ReportWord::Index, &[name, value.as_slice()])
}

/// end
pub(crate) fn add_last_row(text: &mut Vec<u8>) -> Result<(), AllocError>
    ensures { OnOk result (text.new.items ≡ text.old.items ++ row (codes "end" ∷ [])) }
{
    add_row(text, ReportWord::End, &[])
}
