//! What a switching order comes to, in a network without loops.
#![tactic(auto)]

ghost use Rattle.std.specs.Prelude.{◌≡◌, ◌<◌, true, false, length, slice_index_or, slice_set, Ok, Err};
ghost use Rattle.outage_rules.specs.Network.{IsRadial};
ghost use Rattle.outage_rules.specs.Loops.{would_loop};
ghost use Rattle.grid_model.specs.declared.history.Want.TheVariants.{Closed};
ghost use Rattle.grid_model.specs.declared.history.Refusal.TheVariants.{Loop};
ghost use Rattle.grid_model.specs.Network.{network_in};
ghost use Rattle.radial_forest.specs.Forested.{IsForestOf};
ghost use Rattle.switching.specs.declared.Change.TheVariants.{Opens, Closes};
ghost use Rattle.switching.specs.Decision.{decision};

use grid_model::{DeviceId, Grid, Refusal, Want};
use outage_rules::{loop_is_a_walk, radial_stays};
use radial_forest::Forest;

/// What an order does to its device.
#[derive(Clone, Copy, Debug, PartialEq, Eq)]
pub enum Change {
    /// The device is in the state that is wanted.
    Nothing,
    Opens,
    Closes,
}

/// What an order does to the device: nothing where the device is in the state that is wanted. The
/// order is refused where it would close a loop.
pub fn decide(grid: &Grid, forest: &Forest, d: DeviceId, want: Want) -> Result<Change, Refusal>
    requires of_grid { IsForestOf grid.now forest.now.closed forest.now }
    requires device { d.0 < length grid.now.devices }
    ensures decided { result ≡ decision want (slice_index_or forest.now.closed d.0 false)
        (would_loop (network_in grid.now (λ e. slice_index_or forest.now.closed e false)) d.0) }
    ensures refused { (rule : Refusal) → result ≡ Err rule
        → (rule ≡ Loop) × (want ≡ Closed) × (slice_index_or forest.now.closed d.0 false ≡ false)
        × (would_loop (network_in grid.now (λ e. slice_index_or forest.now.closed e false)) d.0 ≡ true) }
    ensures opens { result ≡ Ok Opens
        → IsRadial (network_in grid.now (λ e. slice_index_or (slice_set forest.now.closed d.0 false) e false)) }
    ensures closes { result ≡ Ok Closes
        → IsRadial (network_in grid.now (λ e. slice_index_or (slice_set forest.now.closed d.0 true) e false)) }
{
    loop_is_a_walk();
    radial_stays();
    match want {
        Want::Opened if forest.is_closed(d) => Ok(Change::Opens),
        Want::Closed if forest.is_closed(d) => Ok(Change::Nothing),
        Want::Closed if forest.would_loop(grid, d) => Err(Refusal::Loop),
        Want::Closed => Ok(Change::Closes),
        Want::Opened => Ok(Change::Nothing),
    }
}
