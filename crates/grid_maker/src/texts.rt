//! The two texts of a trial.
ghost use Rattle.std.specs.Prelude.{◌≡◌, ◌≤◌, IfOk};
ghost use Rattle.grid_maker.specs.NetworkText.{network_text};
ghost use Rattle.grid_maker.specs.EventText.{event_text};

use crate::events::events_of;
use crate::network::network_of;
use std::alloc::{AllocError, Global};

/// The text of a network of `n` feeders, from 1 to 100, and the text of a storm over it, which has
/// 10,000 lines for each feeder. Both depend on `n` alone. An error says that memory ran out.
pub fn make(alloc: Global, n: u32) -> Result<(Vec<u8>, Vec<u8>), AllocError>
    requires some { 1 ≤ n }
    requires few { n ≤ 100 }
    ensures network { IfOk result (λ texts. texts.0.items ≡ network_text n) }
    ensures events { IfOk result (λ texts. texts.1.items ≡ event_text n) }
{
    Ok((network_of(alloc, n)?, events_of(alloc, n)?))
}
