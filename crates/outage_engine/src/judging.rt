//! The judgement of a field after an event.
ghost use Rattle.std.specs.Prelude.{◌≡◌, ◌≤◌, ◌+◌, true, false, length, map};
ghost use Rattle.radial_forest.specs.Traversed.{node_at};
ghost use Rattle.subtree_costs.specs.Costed.{IsCosted, problem_in};
ghost use Rattle.diagnosis.specs.Judgement.{IsSized, IsJudged, TellsDiagnosis, differences};
ghost use Rattle.diagnosis.specs.Watched.{AreDifferences};
ghost use Rattle.field_state.specs.Acted.{is_switching};
ghost use Rattle.outage_engine.specs.Settled.{CanBeSettled, settle_work};

use diagnosis::Judged;
use field_state::Field;
use grid_model::{Grid, What};
use std::sync::ledger::Ledger;
use subtree_costs::Steps;

/// Whether an event is a switching order.
pub(crate) fn is_switching(what: What) -> bool
    ensures { result ≡ is_switching what }
{
    match what {
        What::Order(_, _) => true,
        _ => false,
    }
}

/// Judges a field anew: all of it after a switching, and after another event along the walks from the
/// places where it changed. Takes at most a step a node after a switching; after another event a step
/// for each device on those walks, one for each place, and one for each device at a node that flips.
pub(crate) fn judge_field<L: Ledger>(
    grid: &Grid,
    field: &Field,
    judged: &mut Judged,
    switched: bool,
    steps: &mut Steps<L>,
)
    requires costed { IsCosted grid.now field.now.costs }
    requires sized { IsSized (length grid.now.nodes) (length grid.now.devices) judged.old }
    requires settled { switched ≡ false → CanBeSettled grid.now field.now judged.old }
    ensures judged { IsJudged grid.now field.now.costs judged.new }
    ensures diagnosis { TellsDiagnosis (problem_in grid.now field.now.costs) judged.new }
    ensures opened_begun { judged.new.opened_begun ≡ judged.old.opened_begun }
    ensures dark_begun { judged.new.dark_begun ≡ judged.old.dark_begun }
    ensures changed { map (λ d. d.0) judged.new.changed ≡ differences judged.new.opened_begun judged.new.opened }
    ensures anew { switched ≡ true → steps.new ≤ steps.old + length grid.now.nodes }
    ensures steps { switched ≡ false → steps.new ≤ steps.old + settle_work grid.now field.now judged.old judged.new }
{
    if switched {
        judged.recompute(grid, field.costs(), steps);
    } else {
        judged.settle(grid, field.costs(), field.places(), steps);
    }
}
