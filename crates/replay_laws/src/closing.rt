//! What a reader of the output knows, and what its bounds show.
ghost use Rattle.replay_laws.specs.ClosingLaws.{CostIsPrinted, LinesAreTold, RunIsTold, BoundsAreShown};

use super::round_trip::replay_is_valid;
use bound_checker::valid_is_passed;
use grid_reader::text_is_sound;
use history_rules::{
    diagnosis_is_printed, history_is_diagnosed, history_is_radial, problem_is_sound,
    run_is_history, run_of_parts,
};
use outage_rules::{
    check_is_sound, least_is_bounded, nothing_costs_nothing, one_least_cost,
    reference_table_is_exact, row_is_least,
};

/// A reader of the output, line by line, knows the least cost: from a row `cost,LINE,NUMBER` on it
/// is NUMBER, and 0 before any.
pub fn cost_is_printed()
    ensures { CostIsPrinted }
{
    run_is_history();
    history_is_diagnosed();
    history_is_radial();
    problem_is_sound();
    least_is_bounded();
    nothing_costs_nothing();
    one_least_cost();
}

/// For every network text and after any lines of events: the devices that entered by the rows
/// printed so far, and did not leave since, are the diagnosis, and the cost printed last is the least
/// cost.
pub fn lines_are_told()
    ensures { LinesAreTold }
{
    text_is_sound();
    run_is_history();
    history_is_diagnosed();
    diagnosis_is_printed();
    cost_is_printed();
}

/// For every network text and every events text: so it is after each front of the lines, and the
/// rows of a front stand at the front of the output.
pub fn run_is_told()
    ensures { RunIsTold }
{
    lines_are_told();
    run_of_parts();
}

/// For every network text and every events text: the tight bounds pass the local check and are what
/// the output is read as, each of their rows is the least cost of its part, and bounds that pass,
/// whoever made them, show that no feasible set costs less.
pub fn bounds_are_shown()
    ensures { BoundsAreShown }
{
    text_is_sound();
    run_is_history();
    history_is_radial();
    problem_is_sound();
    reference_table_is_exact();
    row_is_least();
    valid_is_passed();
    check_is_sound();
    replay_is_valid();
}
