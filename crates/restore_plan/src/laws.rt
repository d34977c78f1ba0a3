//! What the definition of a plan comes to.
ghost use Rattle.restore_plan.specs.Restoring.{OnePlan};

/// There is one list of moves, and no other.
pub fn one_plan()
    ensures { OnePlan }
{}
