//! What holds of each field after events.
ghost use Rattle.field_state.specs.Fielded.{FieldPoses};

use history_rules::{history_is_within_grid, problem_is_sound};

/// The states, the marks and the weights of a field after events pose the problem of those events,
/// which is sound: the closed devices close no loop, only closed devices are marked opened, the dark
/// and the live weights sum up to at most 10^12 each, and these and the marked devices weigh at most
/// 10^15.
pub fn field_poses()
    ensures { FieldPoses }
{
    history_is_within_grid();
    problem_is_sound();
}
