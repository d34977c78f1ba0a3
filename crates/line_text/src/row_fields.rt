//! The fields of a row, one after the other.
use csv::ByteRecord;
use std::marker::Model;

/// The fields of a row that are left.
#[derive(Drop)]
pub struct RowFields<'r> {
    row: &'r ByteRecord,
    taken: usize,
}

impl<'r> Model for RowFields<'r> {
    ghost use Rattle.std.specs.Prelude.{List, ℕ, drop};
    ghost use Rattle.csv.specs.Records.{fields_of};

    ghost Value = { List (List ℕ) };

    ghost view = { λ f. drop f.taken (fields_of f.row.now) };
}

impl<'r> RowFields<'r> {
    ghost use Rattle.std.specs.Prelude.{◌≡◌, ◌↔◌, [], IsTrue};
    ghost use Rattle.csv.specs.Records.{fields_of};

    /// All fields of a row.
    pub fn of(row: &'r ByteRecord) -> RowFields<'r>
        ensures { result ≡ fields_of row.now }
    {
        RowFields { row, taken: 0 }
    }

    /// Whether no field is left.
    pub fn is_at_end(&self) -> bool
        ensures { IsTrue result ↔ (self.now ≡ []) }
    {
        self.row.get(self.taken).is_none()
    }
}

impl<'r> Iterator for RowFields<'r> {
    ghost use Rattle.std.specs.Iterator.{YieldsFirstRef, item_count};

    type Item = &'r [u8];

    ghost next_gives = { YieldsFirstRef (λ s. s) };

    ghost remaining = { item_count (λ s. s) };

    fn next(&mut self) -> Option<&'r [u8]> {
        let field = self.row.get(self.taken)?;
        self.taken += 1;
        Some(field)
    }
}
