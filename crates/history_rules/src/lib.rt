//! What events come to, by the list of them: definitions, and laws about them.
#![tactic(auto)]

mod laws;

pub use laws::{
    applied_stays_radial, crew_order_is_sorted, diagnosis_is_printed, evidence_is_kept,
    history_is_diagnosed, history_is_radial, history_is_timely, history_is_within_grid,
    ledger_is_timely, lines_follow_rules, lines_of_limit, lines_of_parts, outages_can_be_ordered,
    periods_add_up, problem_is_sound, refused_are_the_rest, run_is_history, run_of_parts,
    stamp_text_is_read, weights_change_when_due, weights_stay_until_due,
};
