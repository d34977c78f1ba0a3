//! Reading the lines of a block.
ghost use Rattle.std.specs.Prelude.{◌≡◌, ◌+◌, ◌∷◌, [], ℕ, List, length, map, true, None, Some, Ok, IfOk, OnOk, OnErr, MatchOption};
ghost use Rattle.csv.specs.Records.{fields_of};
ghost use Rattle.event_rules.specs.Fields.{between_commas};
ghost use Rattle.line_text.specs.LineSorts.{sort_of, IsRow, IsTold};
ghost use Rattle.line_text.specs.Blocks.{kept_text};
ghost use Rattle.line_text.specs.BlockReading.{AreLeft, IsBefore, lines_left, row_fields};
ghost use Rattle.line_text.specs.declared.sorts.LineSort.TheVariants as of_sort;

use crate::sorts::LineSort;
use csv::{ByteRecord, Error, Reader, ReaderBuilder};
use std::alloc::{AllocError, Global};

/// Reads the lines of a block, one after the other, by one `csv` reader and into one record.
pub struct BlockReader<'b> {
    // What the lines are that are left.
    sorts: &'b [LineSort],
    records: Reader<&'b [u8]>,
    row: ByteRecord,
}

// Written out, so that a caller lets a reader go in one step.
impl<'b> Drop for BlockReader<'b> {
    fn drop(self) {
        let BlockReader {
            sorts: _sorts,
            records: _records,
            row: _row,
        } = self;
    }
}

// Whether a read found a record.
fn is_found(read: Result<bool, Error>) -> bool
    ensures { result ≡ true → read ≡ Ok true }
{
    matches!(read, Ok(true))
}

// Reads the record of the next row.
fn read_row(records: &mut Reader<&[u8]>, row: &mut ByteRecord) -> Result<(), AllocError>
    ensures fields { OnOk result ((line : List ℕ) (rest : List (List ℕ)) → sort_of line ≡ of_sort.Row → IsBefore records.old (kept_text (line ∷ rest)) → fields_of row.new ≡ between_commas line) }
    ensures rest { OnOk result ((line : List ℕ) (rest : List (List ℕ)) → sort_of line ≡ of_sort.Row → IsBefore records.old (kept_text (line ∷ rest)) → IsBefore records.new (kept_text rest)) }
{
    if is_found(records.read_byte_record(row)) {
        Ok(())
    } else {
        Err(AllocError)
    }
}

// Reads the record of the next line, if it has one by its sort.
fn read_as(
    sort: LineSort,
    records: &mut Reader<&[u8]>,
    row: &mut ByteRecord,
) -> Result<(), AllocError>
    ensures fields { OnOk result ((line : List ℕ) (rest : List (List ℕ)) → sort ≡ sort_of line → IsBefore records.old (kept_text (line ∷ rest)) → sort ≡ of_sort.Row → fields_of row.new ≡ between_commas line) }
    ensures rest { OnOk result ((line : List ℕ) (rest : List (List ℕ)) → sort ≡ sort_of line → IsBefore records.old (kept_text (line ∷ rest)) → IsBefore records.new (kept_text rest)) }
    ensures memory { OnErr result (sort ≡ of_sort.Row) }
{
    match sort {
        LineSort::Row => read_row(records, row),
        _ => Ok(()),
    }
}

impl<'b> BlockReader<'b> {
    /// A reader of lines of these sorts, of whose text this is kept.
    pub(crate) fn of(alloc: Global, sorts: &'b [LineSort], text: &'b [u8]) -> BlockReader<'b>
        ensures held { (held : List (List ℕ)) → sorts.now ≡ map sort_of held → text.now ≡ kept_text held → AreLeft result held }
        ensures count { lines_left result ≡ length sorts.now }
    {
        let records = ReaderBuilder::new()
            .has_headers(false)
            .flexible(true)
            .from_reader(alloc, text);
        BlockReader {
            sorts,
            records,
            row: ByteRecord::new(alloc),
        }
    }

    /// Reads the next line, and answers what it is; none behind the last one. A line that is a row
    /// has its fields in [`BlockReader::row`]. Memory is all that may be wanting, since each row is
    /// one record of a text in memory; after that error the reader is of no more use.
    pub fn read_line(&mut self) -> Result<Option<LineSort>, AllocError>
        ensures end { AreLeft self.old [] → result ≡ Ok None }
        ensures told { (line : List ℕ) (rest : List (List ℕ)) → AreLeft self.old (line ∷ rest) → IfOk result (λ found. MatchOption found ⊥ (λ sort. IsTold sort (row_fields self.new) line)) }
        ensures rest { OnOk result ((line : List ℕ) (rest : List (List ℕ)) → AreLeft self.old (line ∷ rest) → AreLeft self.new rest) }
        ensures count { IfOk result (λ found. MatchOption found (lines_left self.old ≡ 0) (λ _. lines_left self.old ≡ lines_left self.new + 1)) }
        ensures memory { OnErr result ((line : List ℕ) (rest : List (List ℕ)) → AreLeft self.old (line ∷ rest) → IsRow line) }
    {
        let Some((sort, rest)) = self.sorts.split_first() else {
            return Ok(None);
        };
        read_as(*sort, &mut self.records, &mut self.row)?;
        self.sorts = rest;
        Ok(Some(*sort))
    }

    /// The fields of the row that was read last.
    pub fn row(&self) -> &ByteRecord
        ensures { fields_of result.now ≡ row_fields self.now }
    {
        &self.row
    }
}
