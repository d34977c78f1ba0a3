//! Why a network text is refused.
use std::alloc::{AllocError, AllocFailed};
use thiserror::Error;

/// The rules of a network text, in the order in which a line is tried by them.
#[derive(Clone, Copy, Debug, PartialEq, Eq, Error)]
pub enum GridRule {
    /// The line has more than 512 bytes or no fields, is of no sort, hasn't the number of fields of
    /// its sort, or has a state that is neither `closed` nor `open`.
    #[error("BadRow")]
    BadRow,
    /// A name isn't 1 to 32 letters, digits or `_ - . /`, or is `-`.
    #[error("BadName")]
    BadName,
    /// No kind of device has the word.
    #[error("UnknownKind")]
    UnknownKind,
    /// No setting has the word.
    #[error("UnknownSetting")]
    UnknownSetting,
    /// A weight, a number of customers or a value isn't of its form or range.
    #[error("BadNumber")]
    BadNumber,
    /// Both ends of the device are one node.
    #[error("SameEnds")]
    SameEnds,
    /// An earlier row makes the node a source.
    #[error("DuplicateSource")]
    DuplicateSource,
    /// An earlier device has the name.
    #[error("DuplicateDevice")]
    DuplicateDevice,
    /// An earlier meter has the name.
    #[error("DuplicateMeter")]
    DuplicateMeter,
    /// An earlier row sets the setting.
    #[error("DuplicateSetting")]
    DuplicateSetting,
    /// More than 200,000 nodes are mentioned up to this line.
    #[error("TooManyNodes")]
    TooManyNodes,
    /// More than 400,000 devices stand up to this line.
    #[error("TooManyDevices")]
    TooManyDevices,
    /// More than 500,000 meters stand up to this line.
    #[error("TooManyMeters")]
    TooManyMeters,
    /// The device closes a loop with the closed devices before it, all sources being one point. Comes
    /// only where no line breaks another rule.
    #[error("Loop")]
    Loop,
}

/// Why no network is read of a text.
#[derive(Clone, Copy, Debug, PartialEq, Eq)]
pub enum GridFault {
    /// The first line that breaks a rule, numbered from 1, and the first rule that it breaks.
    Refused { line: u32, rule: GridRule },
    /// There was no memory.
    Memory,
}

impl From<AllocError> for GridFault {
    ghost use Rattle.std.specs.Prelude.{◌≡◌};
    ghost use Rattle.grid_reader.specs.declared.fault.GridFault.TheVariants.{Memory};

    ghost from_gives = { λ _ fault. fault ≡ Memory };

    fn from(_error: AllocError) -> GridFault {
        GridFault::Memory
    }
}

/// Why a row isn't taken.
#[derive(Clone, Copy)]
pub(crate) enum RowFault {
    /// The first rule that it breaks.
    Breaks(GridRule),
    /// There was no memory.
    Memory,
}

impl RowFault {
    ghost use Rattle.std.specs.Prelude.{◌≡◌};
    ghost use Rattle.grid_reader.specs.RowFaults.{fault_at};

    /// The fault of a text whose line of this number has the row.
    pub(crate) fn at(self, line: u32) -> GridFault
        ensures { result ≡ fault_at self line }
    {
        match self {
            RowFault::Breaks(rule) => GridFault::Refused { line, rule },
            RowFault::Memory => GridFault::Memory,
        }
    }
}

impl From<AllocError> for RowFault {
    ghost use Rattle.std.specs.Prelude.{◌≡◌};
    ghost use Rattle.grid_reader.specs.declared.fault.RowFault.TheVariants as row_fault;

    ghost from_gives = { λ _ fault. fault ≡ row_fault.Memory };

    fn from(_error: AllocError) -> RowFault {
        RowFault::Memory
    }
}

impl<T: Drop> From<AllocFailed<T>> for RowFault {
    ghost use Rattle.std.specs.Prelude.{◌≡◌};
    ghost use Rattle.grid_reader.specs.declared.fault.RowFault.TheVariants as row_fault;

    ghost from_gives = { λ _ fault. fault ≡ row_fault.Memory };

    fn from(_error: AllocFailed<T>) -> RowFault {
        RowFault::Memory
    }
}

impl From<GridRule> for RowFault {
    ghost use Rattle.std.specs.Prelude.{◌≡◌};
    ghost use Rattle.grid_reader.specs.declared.fault.RowFault.TheVariants as row_fault;

    ghost from_gives = { λ rule fault. fault ≡ row_fault.Breaks rule };

    fn from(rule: GridRule) -> RowFault {
        RowFault::Breaks(rule)
    }
}
