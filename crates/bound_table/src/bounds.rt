//! The bounds of a diagnosis.
use grid_model::{DeviceId, NodeId};
use std::marker::Model;
use thiserror::Error;

/// What is claimed of a fed node: the device that feeds it, none for a source; how many devices
/// lie between it and its source; and the least cost of the part behind it while it is live, and
/// while it is dark.
#[derive(Clone, Copy, Debug, PartialEq, Eq)]
pub struct BoundRow {
    pub node: NodeId,
    pub parent: Option<DeviceId>,
    pub depth: u32,
    pub live: u64,
    pub dark: u64,
}

/// The bounds of a diagnosis: its cost, its cuts, and a row for each fed node.
#[derive(Drop)]
pub struct Bounds {
    pub cost: u64,
    pub cuts: Vec<DeviceId>,
    pub rows: Vec<BoundRow>,
}

impl Model for Bounds {
    ghost use Rattle.bound_table.specs.Table.{Table};

    ghost Value = { Table };

    ghost view = { λ b. record {
      cost = b.cost;
      cuts = b.cuts.items;
      rows = b.rows.items;
    } };
}

/// The rules by which a line of a report is refused.
#[derive(Clone, Copy, Debug, PartialEq, Eq, Error)]
pub enum BoundRule {
    /// No line begins with `bounds,`.
    #[error("NoBounds")]
    NoBounds,
    /// A line of the bounds part isn't of the form of a row, or is a cut behind a row.
    #[error("BadRow")]
    BadRow,
    /// A device or a node is no name.
    #[error("BadName")]
    BadName,
    /// A number isn't of its form or range.
    #[error("BadNumber")]
    BadNumber,
    /// The network has no such device.
    #[error("UnknownDevice")]
    UnknownDevice,
    /// The network has no such node.
    #[error("UnknownNode")]
    UnknownNode,
    /// A cut or a row doesn't come behind the one before it by number.
    #[error("OutOfOrder")]
    OutOfOrder,
    /// The bounds part has no end.
    #[error("NoEnd")]
    NoEnd,
    /// Something stands behind the end of the bounds part.
    #[error("Trailing")]
    Trailing,
}

/// Why no bounds are read of a report.
#[derive(Clone, Copy, Debug, PartialEq, Eq, Error)]
pub enum BoundFault {
    /// The first line that breaks a rule, and the first rule that it breaks; lines are numbered
    /// from 1.
    #[error("line {line}: {rule}")]
    Refused { line: u32, rule: BoundRule },
    /// There was no memory.
    #[error("no memory")]
    Memory,
}
