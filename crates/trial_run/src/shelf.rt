//! A text in memory that is read as a file.
ghost use Rattle.std.specs.Prelude.{◌<◌, true, Some, length};

use outage_ports::{Failed, Shelf};

/// A shelf on which each name is that of one text. It never fails.
#[derive(Drop)]
pub(crate) struct TextShelf<'a> {
    text: &'a [u8],
    rest: &'a [u8],
}

impl<'a> TextShelf<'a> {
    ghost use Rattle.std.specs.Prelude.{◌≡◌};

    /// A shelf of this text.
    pub(crate) fn new(text: &'a [u8]) -> TextShelf<'a>
        ensures { result.text.now ≡ text.now }
    {
        TextShelf { text, rest: text }
    }
}

impl Shelf for TextShelf<'_> {
    ghost allows = { λ _. Unit {0} };

    ghost files = { λ shelf. Some (λ _. Some shelf.text.now) };

    ghost left = { λ shelf. Some shelf.rest.now };

    ghost started = { λ _. true };

    ghost faults = { λ _. 0 };

    fn start(&mut self, _name: &str) -> Result<(), Failed> {
        self.rest = self.text;
        Ok(())
    }

    fn read(&mut self, into: &mut [u8]) -> Result<usize, Failed> {
        let count = self.rest.len().min(into.len());
        let (front, rest) = self.rest.split_at(count);
        into[..count].copy_from_slice(front);
        self.rest = rest;
        Ok(count)
    }
}
