//! The count of the faults of an object.
ghost use Rattle.std.specs.Prelude.{◌≡◌, IsErr};
ghost use Rattle.outage_ports.specs.Causes.{HasCause, one_more};

use crate::Failed;

// Counts a fault, and answers it.
pub(crate) fn fault<T>(faults: &mut u64) -> Result<T, Failed>
    ensures failed { IsErr result }
    ensures count { faults.new ≡ one_more faults.old }
    ensures cause { HasCause faults.old faults.new result }
{
    *faults = faults.saturating_add(1);
    Err(Failed)
}
