//! Reports of one time can change places.
ghost use Rattle.replay_laws.specs.Exchanged.{ReportsExchange};

use history_rules::{evidence_is_kept, history_is_timely};

/// Two reports of different meters (calls, last gasps, pings or power-up messages) that come at one
/// time can change places: what is known of the network right after them, and after any later events,
/// is the same. So is the diagnosis.
pub fn reports_can_change_places()
    ensures { ReportsExchange }
{
    evidence_is_kept();
    history_is_timely();
}
