//! The fields of a line.
use crate::cuts::cut_at;
use std::marker::Model;

/// The fields of a line that are left: what stands between its commas.
#[derive(Drop)]
pub struct Fields<'a> {
    rest: Option<&'a [u8]>,
}

impl<'a> Model for Fields<'a> {
    ghost use Rattle.std.specs.Prelude.{List, ℕ, option_copied};
    ghost use Rattle.line_text.specs.FieldsLeft.{fields_left};

    ghost Value = { List (List ℕ) };

    ghost view = { λ f. fields_left (option_copied f.rest) };
}

impl<'a> Fields<'a> {
    ghost use Rattle.std.specs.Prelude.{◌≡◌, ◌↔◌, [], IsTrue};
    ghost use Rattle.event_rules.specs.Fields.{between_commas};

    /// The fields of a line.
    pub fn of(line: &'a [u8]) -> Fields<'a>
        ensures { result ≡ between_commas line.now }
    {
        Fields { rest: Some(line) }
    }

    /// Whether no field is left.
    pub fn is_at_end(&self) -> bool
        ensures { IsTrue result ↔ (self.now ≡ []) }
    {
        self.rest.is_none()
    }
}

impl<'a> Iterator for Fields<'a> {
    ghost use Rattle.std.specs.Iterator.{YieldsFirstRef, item_count};

    type Item = &'a [u8];

    ghost next_gives = { YieldsFirstRef (λ s. s) };

    ghost remaining = { item_count (λ s. s) };

    fn next(&mut self) -> Option<&'a [u8]> {
        let rest = self.rest?;
        match cut_at(rest, b',') {
            Some((field, behind)) => {
                self.rest = Some(behind);
                Some(field)
            }
            None => {
                self.rest = None;
                Some(rest)
            }
        }
    }
}
