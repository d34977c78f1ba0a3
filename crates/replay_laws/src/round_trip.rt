//! What a replay writes with its bounds is found valid.
ghost use Rattle.replay_laws.specs.RoundTrip.{ReplayIsValid};

use bound_checker::tight_is_valid;
use bound_table::written_is_read;
use grid_reader::text_is_sound;
use history_rules::{history_is_radial, problem_is_sound, run_is_history};
use outage_rules::{
    distance_is_bounded, least_is_bounded, reference_table_is_exact, rows_are_bounded,
};

/// For every network text, every events text and every period: what a replay writes with its bounds
/// is read as the tight bounds of all events, and the local check by the same network and events
/// finds them valid.
pub fn replay_is_valid()
    ensures { ReplayIsValid }
{
    text_is_sound();
    run_is_history();
    history_is_radial();
    problem_is_sound();
    reference_table_is_exact();
    rows_are_bounded();
    least_is_bounded();
    distance_is_bounded();
    written_is_read();
    tight_is_valid();
}
