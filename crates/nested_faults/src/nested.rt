//! The outages of a field that is judged.
ghost use Rattle.std.specs.Prelude.{◌≡◌, List, IfOk};
ghost use Rattle.grid_model.specs.declared.history.Event.{Event};
ghost use Rattle.history_rules.specs.Posed.{diagnosis_after};
ghost use Rattle.history_rules.specs.Outages.{outages_after};
ghost use Rattle.diagnosis.specs.Judgement.{opened_by};
ghost use Rattle.field_state.specs.Fielded.{IsFieldAfter};
ghost use Rattle.nested_faults.specs.JudgedField.{IsJudgedField};

use crate::cuts::last_cuts;
use crate::listing::list_outages;
use crate::tally::tallies;
use diagnosis::Judged;
use field_state::{Field, field_poses};
use grid_model::{Grid, Outage};
use history_rules::problem_is_sound;
use std::alloc::{AllocError, Global};
use subtree_costs::fed_rows_are_exact;

/// One outage for each device of the diagnosis, by device number: the last other one on the walk
/// to it, and of the meters of which it is the last one on the walk, how many they are, how many
/// customers they serve, the earliest time of a dark report that counts, and whether a dark signal
/// of one of them came back after a restoration. An error says that memory ran out.
pub fn outages(
    alloc: Global,
    grid: &Grid,
    field: &Field,
    judged: &Judged,
) -> Result<Vec<Outage>, AllocError>
    requires { IsJudgedField grid.now field.now judged.now }
    ensures { IfOk result (λ v. (h : List Event) → IsFieldAfter grid.now h field.now → opened_by judged.now ≡ diagnosis_after grid.now h
        → v.items ≡ outages_after grid.now h (diagnosis_after grid.now h)) }
{
    let costs = field.costs();
    let last = last_cuts(alloc, grid, costs, judged)?;
    let tallies = tallies(alloc, grid, field.evidence(), &last)?;
    problem_is_sound();
    field_poses();
    fed_rows_are_exact();
    list_outages(alloc, grid, costs, judged, &last, &tallies)
}
