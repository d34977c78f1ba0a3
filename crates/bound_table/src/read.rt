//! Reading the bounds of a report.
ghost use Rattle.std.specs.Prelude.{◌≡◌, ◌+◌, ◌≤◌, ◌<◌, ℕ, length, OnOk, IfOk, IfErr, Err, if◌then◌else◌};
ghost use Rattle.grid_model.specs.Parts.{Parts};
ghost use Rattle.bound_table.specs.declared.bounds.BoundRule.{BoundRule};
ghost use Rattle.bound_table.specs.Sound.{IsTableOf};
ghost use Rattle.bound_table.specs.Report.{report_reading, after_text, begins_bounds, bare_table, with_line, with_bound_line, with_cut, with_row, Before, Inside, Ended, IsRead, IsRefused};
ghost use Rattle.bound_table.specs.Faults.{IsFaultOf, IsFaultAt};

use crate::bound_line::BoundLine;
use crate::bounds::{BoundFault, BoundRow, BoundRule, Bounds};
use crate::laws::read_is_of_network;
use crate::lines::{read_cost, read_line};
use crate::words::{ReportWord, text_of};
use grid_model::{DeviceId, Grid};
use line_text::cut_at;
use std::alloc::Global;

// What is left of a report, and the number of its first line.
#[derive(Clone, Copy)]
struct Left<'a> {
    number: u32,
    text: &'a [u8],
}

fn is_first_of_bounds(line: &[u8]) -> bool
    ensures { result ≡ begins_bounds line.now }
{
    line.strip_prefix(text_of(ReportWord::Bounds))
        .is_some_and(|behind| behind.starts_with(b","))
}

// The cost of the bounds part, and what is left behind its first line.
fn find_bounds(report: &[u8]) -> Result<(u64, Left<'_>), BoundFault>
    requires { length report.now ≤ 268435456 }
    ensures found { IfOk result (λ p. (g : Parts) → report_reading g report.now ≡ after_text g (Inside (bare_table p.0)) p.1.number p.1.text.now) }
    ensures few { IfOk result (λ p. p.1.number + length p.1.text.now ≤ 268435457) }
    ensures refused { IfErr result (λ fault. (g : Parts) → IsFaultOf (report_reading g report.now) fault) }
{
    let mut rest = report;
    let mut number = 1u32;
    'lines: while let Some((line, behind)) = cut_at(rest, b'\n') {
        if is_first_of_bounds(line) {
            return match read_cost(line) {
                Ok(cost) => Ok((
                    cost,
                    Left {
                        number: number + 1,
                        text: behind,
                    },
                )),
                Err(rule) => Err(BoundFault::Refused { line: number, rule }),
            };
        }
        rest = behind;
        number += 1;
    }
    Err(BoundFault::Refused {
        line: number,
        rule: BoundRule::NoBounds,
    })
}

// Takes a cut, if it comes behind the one before it.
fn add_cut(bounds: &mut Bounds, number: u32, cut: DeviceId) -> Result<(), BoundFault>
    ensures taken { OnOk result (with_cut number bounds.old cut ≡ Inside bounds.new) }
    ensures refused { IfErr result (IsFaultAt (with_cut number bounds.old cut)) }
{
    if let Some(last) = bounds.cuts.last() {
        if cut.0 <= last.0 {
            return Err(BoundFault::Refused {
                line: number,
                rule: BoundRule::OutOfOrder,
            });
        }
    }
    bounds.cuts.push(cut).map_err(|_| BoundFault::Memory)?;
    Ok(())
}

// Takes a row, if it comes behind the one before it.
fn add_row(bounds: &mut Bounds, number: u32, row: BoundRow) -> Result<(), BoundFault>
    ensures taken { OnOk result (with_row number bounds.old row ≡ Inside bounds.new) }
    ensures refused { IfErr result (IsFaultAt (with_row number bounds.old row)) }
{
    if let Some(last) = bounds.rows.last() {
        if row.node.0 <= last.node.0 {
            return Err(BoundFault::Refused {
                line: number,
                rule: BoundRule::OutOfOrder,
            });
        }
    }
    bounds.rows.push(row).map_err(|_| BoundFault::Memory)?;
    Ok(())
}

// Takes a later line of the bounds part, and answers whether it is the last.
fn add_line(grid: &Grid, bounds: &mut Bounds, number: u32, line: &[u8]) -> Result<bool, BoundFault>
    ensures taken { IfOk result (λ last. with_line grid.now number line.now (Inside bounds.old) ≡ (if last then Ended bounds.new else Inside bounds.new)) }
    ensures refused { IfErr result (IsFaultAt (with_line grid.now number line.now (Inside bounds.old))) }
{
    match read_line(grid, bounds.rows.is_empty(), line) {
        Err(rule) => Err(BoundFault::Refused { line: number, rule }),
        Ok(BoundLine::Cut(cut)) => {
            add_cut(bounds, number, cut)?;
            Ok(false)
        }
        Ok(BoundLine::Row(row)) => {
            add_row(bounds, number, row)?;
            Ok(false)
        }
        Ok(BoundLine::End) => Ok(true),
    }
}

// Reads the bounds part behind its first line, and answers what is left behind its end.
fn read_part<'a>(grid: &Grid, bounds: &mut Bounds, left: Left<'a>) -> Result<Left<'a>, BoundFault>
    requires { left.number + length left.text.now ≤ 268435457 }
    ensures read { IfOk result (λ behind. after_text grid.now (Inside bounds.old) left.entry.number left.entry.text.now ≡ after_text grid.now (Ended bounds.new) behind.number behind.text.now) }
    ensures refused { IfErr result (IsFaultOf (after_text grid.now (Inside bounds.old) left.entry.number left.entry.text.now)) }
{
    let mut rest = left.text;
    let mut number = left.number;
    'lines: while let Some((line, behind)) = cut_at(rest, b'\n') {
        let is_last = add_line(grid, bounds, number, line)?;
        rest = behind;
        number += 1;
        if is_last {
            return Ok(Left { number, text: rest });
        }
    }
    Err(BoundFault::Refused {
        line: number,
        rule: BoundRule::NoEnd,
    })
}

// The bounds of a report.
fn read_table(alloc: Global, grid: &Grid, bytes: &[u8]) -> Result<Bounds, BoundFault>
    requires { length bytes.now ≤ 268435456 }
    ensures read { IfOk result (λ bounds. report_reading grid.now bytes.now ≡ IsRead bounds) }
    ensures of_network { IfOk result (IsTableOf grid.now) }
    ensures refused { IfErr result (IsFaultOf (report_reading grid.now bytes.now)) }
{
    let (cost, left) = find_bounds(bytes)?;
    let mut bounds = Bounds {
        cost,
        cuts: Vec::new(alloc),
        rows: Vec::new(alloc),
    };
    let behind = read_part(grid, &mut bounds, left)?;
    if !behind.text.is_empty() {
        return Err(BoundFault::Refused {
            line: behind.number,
            rule: BoundRule::Trailing,
        });
    }
    read_is_of_network();
    Ok(bounds)
}

/// The bounds of a report: lines that don't begin with `bounds,`, then the bounds part as
/// `put_bounds` prints it, then nothing. Each line ends with an LF; what stands behind the last LF
/// is no line.
pub fn read_bounds(alloc: Global, grid: &Grid, bytes: &[u8]) -> Result<Bounds, BoundFault>
    requires { length bytes.now ≤ 268435456 }
    ensures read { IfOk result (λ bounds. report_reading grid.now bytes.now ≡ IsRead bounds) }
    ensures of_network { IfOk result (IsTableOf grid.now) }
    ensures refused { (line : ℕ) (rule : BoundRule) → result ≡ Err (BoundFault.Refused line rule) → report_reading grid.now bytes.now ≡ IsRefused line rule }
{
    read_table(alloc, grid, bytes)
}
