//! The cost rows of the nodes, which are read and written in counted steps alone.
use grid_model::NodeId;
use std::alloc::{AllocError, Global};
use std::marker::Model;
use std::sync::ledger::{Blank, Book, Ledger, Share};

/// What the part at and below a node costs at least where the node is live, and what it costs where
/// the node is dark.
#[derive(Clone, Copy, Debug, PartialEq, Eq)]
pub struct Row {
    pub live: u64,
    pub dark: u64,
}

/// How many rows were read or written. It takes no bytes, and nothing else raises it.
#[derive(Drop)]
pub struct Steps<L: Ledger> {
    book: Book<L>,
    share: Share<L>,
}

impl<L: Ledger> Model for Steps<L> {
    ghost use Rattle.std.specs.Prelude.{ℕ, ◌<◌};

    ghost Value = { ℕ };

    ghost view = { λ s. s.book.total };

    ghost invariant = { λ s. 0 < s.share.parts };
}

impl<L: Ledger> Steps<L> {
    ghost use Rattle.std.specs.Prelude.{◌≡◌, ◌+◌, ◌<◌};

    /// A counter that stands at 0.
    pub fn new(blank: Blank) -> Steps<L>
        requires name { blank.name ≡ L.name }
        requires parts { blank.parts ≡ L.parts }
        requires some { 0 < blank.parts }
        ensures { result ≡ 0 }
    {
        let (book, share) = blank.open::<L>();
        Steps { book, share }
    }

    // One more step.
    fn tick(&mut self)
        ensures { self.new ≡ self.old + 1 }
    {
        self.book.add(&mut self.share, 1);
    }
}

/// One row a node, to be read and written one by one.
#[derive(Drop)]
pub(crate) struct Rows {
    rows: Vec<Row>,
}

impl Model for Rows {
    ghost use Rattle.std.specs.Prelude.{List};
    ghost use Rattle.subtree_costs.specs.declared.rows.Row.{Row};

    ghost Value = { List Row };

    ghost view = { λ r. r.rows.items };
}

impl Rows {
    ghost use Rattle.std.specs.Prelude.{◌≡◌, ◌+◌, ◌<◌, length, replicate, slice_set, IfOk};
    ghost use Rattle.subtree_costs.specs.Shares.{no_row, row_at};

    // A row of zeros for each node.
    pub(crate) fn new(alloc: Global, nodes: usize) -> Result<Rows, AllocError>
        ensures { IfOk result (λ rows. rows ≡ replicate nodes no_row) }
    {
        Ok(Rows {
            rows: vec![in alloc; Row { live: 0, dark: 0 }; nodes]?,
        })
    }

    // The row of a node, in one step.
    pub(crate) fn read<L: Ledger>(&self, n: NodeId, steps: &mut Steps<L>) -> Row
        requires { n.0 < length self.now }
        ensures row { result ≡ row_at self.now n.0 }
        ensures steps { steps.new ≡ steps.old + 1 }
    {
        steps.tick();
        self.rows[n.0 as usize]
    }

    // Writes the row of a node, in one step.
    pub(crate) fn write<L: Ledger>(&mut self, n: NodeId, row: Row, steps: &mut Steps<L>)
        requires { n.0 < length self.old }
        ensures rows { self.new ≡ slice_set self.old n.0 row }
        ensures steps { steps.new ≡ steps.old + 1 }
    {
        steps.tick();
        self.rows[n.0 as usize] = row;
    }
}
