//! The numbers of names.
ghost use Rattle.std.specs.Prelude.{◌≡◌, ◌<◌, [], Some, IfOk, OnErr, position, slice_get, length};
ghost use Rattle.grid_model.specs.Names.{mentioned, name_eq, AreDistinct};

use crate::name::Name;
use indexmap::IndexSet;
use std::alloc::{AllocError, Global};
use std::marker::Model;

/// Names, numbered from 0 in the order of their first mention.
#[derive(Drop)]
pub struct Names {
    names: IndexSet<Name>,
}

impl Model for Names {
    ghost use Rattle.std.specs.Prelude.{List, ℕ};

    ghost Value = { List (List ℕ) };

    ghost view = { λ a. a.names.keys };
}

impl Names {
    /// No names yet.
    pub fn new(alloc: Global) -> Names
        ensures { result ≡ [] }
    {
        Names {
            names: IndexSet::new(alloc),
        }
    }

    /// Names that are distinct, in their order.
    pub fn of(alloc: Global, names: &[Name]) -> Result<Names, AllocError>
        requires { AreDistinct names.now }
        ensures { IfOk result (λ made. made ≡ names.now) }
    {
        let mut made = Names::new(alloc);
        for name in names {
            made.mention(*name)?;
        }
        Ok(made)
    }

    /// Mentions a name, and answers its number: the next one where it wasn't mentioned before.
    pub fn mention(&mut self, name: Name) -> Result<usize, AllocError>
        ensures names { IfOk result (λ i. self.new ≡ mentioned self.old name) }
        ensures number { IfOk result (λ i. slice_get self.new i ≡ Some name) }
        ensures err { OnErr result (self.new ≡ self.old) }
    {
        let (index, _) = self.names.insert_full(name)?;
        Ok(index)
    }

    /// The number of a name; none exactly where it wasn't mentioned.
    pub fn find(&self, name: Name) -> Option<usize>
        ensures { result ≡ position (name_eq name) self.now }
    {
        self.names.get_index_of(&name)
    }

    /// The name of a number.
    pub fn name(&self, number: usize) -> Name
        requires { number < length self.now }
        ensures { slice_get self.now number ≡ Some result }
    {
        *self.names.get_index(number).unwrap()
    }

    /// How many names there are.
    pub fn len(&self) -> usize
        ensures { result ≡ length self.now }
    {
        self.names.len()
    }
}
