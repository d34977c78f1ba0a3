//! How a run ends.
ghost use Rattle.std.specs.Prelude.{◌≡◌};
ghost use Rattle.run_rules.specs.Number.{status_number};

use bound_checker::CheckRule;
use bound_table::BoundRule;
use grid_reader::GridRule;
use thiserror::Error;

/// The limits that a run can meet.
#[derive(Clone, Copy, Debug, PartialEq, Eq, Error)]
pub enum Which {
    /// The network has more bytes than may be read.
    #[error("NetworkBytes")]
    NetworkBytes,
    /// The events have a line more than may count, of those that aren't skipped.
    #[error("EventLines")]
    EventLines,
    /// The events have more bytes than may be read.
    #[error("EventBytes")]
    EventBytes,
    /// The report has more bytes than may be read.
    #[error("ReportBytes")]
    ReportBytes,
}

/// How a run ends.
#[derive(Clone, Copy, Debug, PartialEq, Eq)]
pub enum Status {
    /// All was read, and all was written.
    Done,
    /// The check found bounds that don't show the least cost, by the first rule that is broken.
    Invalid { rule: CheckRule },
    /// The command words are of no form.
    Usage,
    /// The shelf failed.
    ReadFault,
    /// The sink failed.
    WriteFault,
    /// The network text is refused at its first line that breaks a rule.
    NetworkRefused { line: u32, rule: GridRule },
    /// The report is refused at its first line that breaks a rule.
    ReportRefused { line: u32, rule: BoundRule },
    /// A file is longer than its limit.
    Limit { which: Which },
    /// Memory ran out.
    Memory,
}

impl Status {
    /// The number that the process ends with.
    pub fn number(&self) -> u8
        ensures { result ≡ status_number self.now }
    {
        match self {
            Status::Done => 0,
            Status::Invalid { .. } => 1,
            Status::Usage => 2,
            Status::ReadFault => 3,
            Status::WriteFault => 4,
            Status::NetworkRefused { .. } => 5,
            Status::ReportRefused { .. } => 6,
            Status::Limit { .. } => 7,
            Status::Memory => 8,
        }
    }
}
