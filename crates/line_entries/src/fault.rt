//! Why a text was not written.
ghost use Rattle.std.specs.Prelude.{ℕ, List, Option, OnErr, IsErrOf};
ghost use Rattle.line_entries.specs.Putting.{DidPut, PutsText};
ghost use Rattle.line_entries.specs.declared.fault.PutFault.TheVariants.{Write};

use outage_ports::Failed;

/// Why a text was not written.
#[derive(Clone, Copy, Debug, PartialEq, Eq)]
pub enum PutFault {
    /// The sink failed.
    Write,
    /// There was no memory.
    Memory,
}

/// What writing a text to a sink comes to.
pub(crate) fn fault_of(put: Result<(), Failed>) -> Result<(), PutFault>
    ensures puts { (before now : Option (List ℕ)) (faults_before faults_now : ℕ) (text : List ℕ)
        → DidPut before now faults_before faults_now put text
        → PutsText before now faults_before faults_now result text }
    ensures only_write { OnErr result (IsErrOf result Write) }
{
    match put {
        Ok(()) => Ok(()),
        Err(Failed) => Err(PutFault::Write),
    }
}
