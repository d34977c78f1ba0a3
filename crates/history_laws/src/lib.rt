//! Laws that say in other words what events come to. No code that runs.
#![tactic(auto)]

ghost use Rattle.history_laws.specs.Costs.{CostIsByMeters};
ghost use Rattle.history_laws.specs.Runs.{LedgerLinesAreRuns};

/// What a set of devices costs after a history is the sum of its own weights and, meter by meter, of
/// the reports that it contradicts.
pub fn cost_is_by_meters()
    ensures { CostIsByMeters }
{}

/// The interruptions of a meter are the maximal runs of events after which it is judged dark, in their
/// order, but for a run that begins before all events.
pub fn ledger_lines_are_runs()
    ensures { LedgerLinesAreRuns }
{}
