//! Reading the network of a text.
ghost use Rattle.std.specs.Prelude.{◌≡◌, ◌≤◌, ◌+◌, ◌++◌, ℕ, List, length, Err, IfOk, OnOk, IfErr};
ghost use Rattle.csv.specs.Records.{fields_of};
ghost use Rattle.line_text.specs.LineSorts.{IsTold};
ghost use Rattle.line_text.specs.BlockReading.{AreLeft, lines_left};
ghost use Rattle.grid_reader.specs.declared.row.Row.{Row};
ghost use Rattle.grid_reader.specs.declared.fault.GridRule.{GridRule};
ghost use Rattle.grid_reader.specs.Text.{Rows, Stopped, with_line, grid_text, IsGrid, IsRefusedAt};
ghost use Rattle.grid_reader.specs.RowFaults.{IfBroken};
ghost use Rattle.grid_reader.specs.Draft.{IsDraftOf};
ghost use Rattle.grid_reader.specs.Reader.{IsReadInto, IsDraftOfText, Continues};

use crate::draft::Draft;
use crate::fault::{GridFault, RowFault};
use crate::rows::row_of_line;
use csv::ByteRecord;
use grid_model::Grid;
use line_text::{BlockReader, LineBlock, LineSort};
use std::alloc::Global;

/// The network of a text, or its first line that breaks a rule.
pub fn read_grid(alloc: Global, bytes: &[u8]) -> Result<Grid, GridFault>
    requires { length bytes.now ≤ 67_108_864 }
    ensures grid { IfOk result (λ grid. grid_text bytes.now ≡ IsGrid grid) }
    ensures refused { (line : ℕ) (rule : GridRule) → result ≡ Err (GridFault.Refused line rule) → grid_text bytes.now ≡ IsRefusedAt line rule }
{
    read_draft(alloc, bytes)?.into_grid(alloc)
}

// Takes the line of this number into the draft, of which this is told, unless it breaks a rule.
fn take_line(
    draft: &mut Draft,
    sort: LineSort,
    fields: &ByteRecord,
    number: u32,
) -> Result<(), RowFault>
    requires { length draft.old.nodes ≤ 200_000 }
    ensures read { (line : List ℕ) (rows : List Row) (lines : List ℕ) → IsTold sort (fields_of fields.now) line → IsDraftOf rows lines draft.old → OnOk result (IsReadInto draft.new number (with_line (Rows rows lines number) line)) }
    ensures few { OnOk result (length draft.new.nodes ≤ 200_000) }
    ensures broken { (line : List ℕ) (rows : List Row) (lines : List ℕ) → IsTold sort (fields_of fields.now) line → IsDraftOf rows lines draft.old → IfErr result (λ fault. IfBroken fault (λ rule. with_line (Rows rows lines number) line ≡ Stopped number rule)) }
{
    if sort == LineSort::Skipped {
        return Ok(());
    }
    let row = row_of_line(sort, fields)?;
    draft.add(row, number)
}

// Takes the lines of a block into the draft, the first of which has this number, and answers the
// number of the line behind them.
fn read_block(draft: &mut Draft, block: &mut BlockReader<'_>, first: u32) -> Result<u32, GridFault>
    requires few { length draft.old.nodes ≤ 200_000 }
    requires room { first + lines_left block.old ≤ 67_108_865 }
    ensures read { IfOk result (λ next. (text : List ℕ) (held behind : List (List ℕ)) → AreLeft block.old held → Continues text (held ++ behind) first draft.old → Continues text behind next draft.new) }
    ensures few { OnOk result (length draft.new.nodes ≤ 200_000) }
    ensures count { IfOk result (λ next. next ≡ first + lines_left block.old) }
    ensures refused { (text : List ℕ) (held behind : List (List ℕ)) → AreLeft block.old held → Continues text (held ++ behind) first draft.old → (line : ℕ) (rule : GridRule) → result ≡ Err (GridFault.Refused line rule) → grid_text text ≡ IsRefusedAt line rule }
{
    let mut number = first;
    'lines: while let Some(sort) = block.read_line()? {
        if let Err(fault) = take_line(draft, sort, block.row(), number) {
            return Err(fault.at(number));
        }
        number += 1;
    }
    Ok(number)
}

// All rows of a text.
fn read_draft(alloc: Global, bytes: &[u8]) -> Result<Draft, GridFault>
    requires { length bytes.now ≤ 67_108_864 }
    ensures draft { IfOk result (IsDraftOfText bytes.now) }
    ensures refused { (line : ℕ) (rule : GridRule) → result ≡ Err (GridFault.Refused line rule) → grid_text bytes.now ≡ IsRefusedAt line rule }
{
    let mut draft = Draft::new(alloc);
    let mut block = LineBlock::new(alloc);
    let mut rest = bytes;
    let mut number = 1;
    'blocks: while !rest.is_empty() {
        rest = block.fill(rest)?;
        let mut lines = block.reader(alloc);
        number = read_block(&mut draft, &mut lines, number)?;
    }
    Ok(draft)
}
