//! The status of a run, by why it ends.
ghost use Rattle.std.specs.Prelude.{◌≡◌};
ghost use Rattle.engine_run.specs.Ended.{status_of_stop, status_of_put};

use event_run::EventsStop;
use line_entries::PutFault;
use run_rules::{Status, Which};

/// The status of a run that stops before the end of the events.
pub fn status_by(stop: EventsStop) -> Status
    ensures { result ≡ status_of_stop stop }
{
    match stop {
        EventsStop::ReadFailed => Status::ReadFault,
        EventsStop::WriteFailed => Status::WriteFault,
        EventsStop::TooManyLines => Status::Limit {
            which: Which::EventLines,
        },
        EventsStop::TooManyBytes => Status::Limit {
            which: Which::EventBytes,
        },
        EventsStop::Memory => Status::Memory,
    }
}

/// The status of a run that ends with its last write.
pub fn status_after(put: Result<(), PutFault>) -> Status
    ensures { result ≡ status_of_put put }
{
    match put {
        Ok(()) => Status::Done,
        Err(PutFault::Write) => Status::WriteFault,
        Err(PutFault::Memory) => Status::Memory,
    }
}
