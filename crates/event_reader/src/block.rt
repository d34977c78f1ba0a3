//! Reading the events of a block of lines.
ghost use Rattle.std.specs.Prelude.{◌≡◌, ◌≢◌, ◌+◌, ◌∷◌, [], ℕ, List, None, Some, Err, MatchOption};
ghost use Rattle.line_text.specs.LineSorts.{IsTold};
ghost use Rattle.line_text.specs.BlockReading.{AreLeft, lines_left};
ghost use Rattle.event_reader.specs.Reading.{IsReading};

use crate::read::event_of_row;
use crate::refusal::ReadRefusal;
use grid_model::{Event, Grid};
use line_text::{BlockReader, LineSort, RowFields};

// What a line of this sort says, of which these are the fields where it is a row.
fn event_of_line(
    grid: &Grid,
    sort: LineSort,
    fields: RowFields<'_>,
) -> Result<Option<Event>, ReadRefusal>
    ensures { (line : List ℕ) → IsTold sort fields.entry line → IsReading grid.now line result }
{
    match sort {
        LineSort::Skipped => Ok(None),
        LineSort::TooLong => Err(ReadRefusal::TooLong),
        LineSort::NoFields => Err(ReadRefusal::BadFields),
        LineSort::Row => event_of_row(grid, fields),
    }
}

/// The event that the next line of a block says, as [`read_event`](crate::read_event) reads it; none
/// behind the last line. After `Memory` the reader is of no more use.
pub fn next_event(
    lines: &mut BlockReader<'_>,
    grid: &Grid,
) -> Option<Result<Option<Event>, ReadRefusal>>
    ensures end { AreLeft lines.old [] → result ≡ None }
    ensures read { (line : List ℕ) (rest : List (List ℕ)) → AreLeft lines.old (line ∷ rest) → MatchOption result ⊥ (λ read. IsReading grid.now line read) }
    ensures rest { (line : List ℕ) (rest : List (List ℕ)) → AreLeft lines.old (line ∷ rest) → result ≢ Some (Err ReadRefusal.Memory) → AreLeft lines.new rest }
    ensures count { MatchOption result (lines_left lines.old ≡ 0) (λ read. read ≢ Err ReadRefusal.Memory → lines_left lines.old ≡ lines_left lines.new + 1) }
{
    match lines.read_line() {
        Ok(None) => None,
        Ok(Some(sort)) => Some(event_of_line(grid, sort, RowFields::of(lines.row()))),
        Err(_) => Some(Err(ReadRefusal::Memory)),
    }
}
