//! What the reports of each meter weigh, and until when.
#![tactic(auto)]

ghost use Rattle.evidence.specs.Laws.{RestoredIsARestore, OthersKeepSlots};
ghost use Rattle.evidence.specs.Calls.{EvidenceIsOfItsCalls, DueIsOfItsCalls};

mod reports;
mod slot;

use grid_model::Stamp;
use history_rules::{weights_change_when_due, weights_stay_until_due};
pub use reports::Evidence;
pub use slot::Sign;

/// What the reports of a meter weigh.
#[derive(Clone, Copy, Debug, PartialEq, Eq)]
pub struct Pull {
    /// The weight of the reports that it is dark.
    pub dark: u64,
    /// The weight of the report that it is live.
    pub live: u64,
    /// When these weights change next by the passing of time alone: none where they never do.
    pub due: Option<Stamp>,
}

/// A restoration leaves what is kept of a meter that it brings back as the rules for events say.
pub fn restored_is_a_restore()
    ensures { RestoredIsARestore }
{}

/// An event that is no report of a meter, and doesn't bring it back, leaves what is kept of it.
pub fn others_keep_slots()
    ensures { OthersKeepSlots }
{}

/// After any calls on a meter whose times never fall, the answers are those of what the calls told:
/// the last call where nothing later answers it, the last signal where it is a dark one that isn't
/// silenced by a restoration or a live one whose hold isn't over, and no other report.
pub fn evidence_is_of_its_calls()
    ensures { EvidenceIsOfItsCalls }
{}

/// After any calls on a meter whose times never fall, a pull is due at the next second at which time
/// alone changes its weights, and never where time alone never changes them.
pub fn due_is_of_its_calls()
    ensures { DueIsOfItsCalls }
{
    weights_stay_until_due();
    weights_change_when_due();
}
