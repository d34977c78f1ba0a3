//! Laws about judgements, as contracts of functions that do nothing.
ghost use Rattle.diagnosis.specs.Judgement.{JudgedTellsDiagnosis};
ghost use Rattle.diagnosis.specs.Settling.{ChangesCanBeSettled};

use subtree_costs::fed_rows_are_exact;

/// Flags that agree with the rows tell the diagnosis.
pub fn judged_tells_diagnosis()
    ensures { JudgedTellsDiagnosis }
{
    fed_rows_are_exact();
}

/// Flags that were judged can be settled after rows and marks changed on the walks of the places alone.
pub fn changes_can_be_settled()
    ensures { ChangesCanBeSettled }
{}
