//! The first device that closes a loop.
ghost use Rattle.std.specs.Prelude.{◌≡◌, ℕ, length, false, slice_index_or, Some, IfOk, option_map};
ghost use Rattle.outage_rules.specs.Network.{IsRadial};
ghost use Rattle.outage_rules.specs.Loops.{first_loop};
ghost use Rattle.grid_model.specs.Network.{network_in};
ghost use Rattle.radial_forest.specs.Spreading.{switched, first_flags};

use crate::traversal::Traversal;
use grid_model::{DeviceId, Grid};
use outage_rules::{radial_before, radial_has_no_loop};
use std::alloc::{AllocError, Global};

/// The first device, by number, that closes a loop with the closed devices before it, all sources
/// being one point: one state a device. An error says that memory ran out.
pub fn first_loop(
    alloc: Global,
    grid: &Grid,
    closed: &[bool],
) -> Result<Option<DeviceId>, AllocError>
    requires { length closed.now ≡ length grid.now.devices }
    ensures { IfOk result (λ o. option_map (λ d. d.0) o
        ≡ first_loop (network_in grid.now (λ d. slice_index_or closed.now d false))) }
{
    let mut traversal = Traversal::new(alloc, grid)?;
    let mut kept = vec![in alloc; false; grid.devices() as usize]?;
    radial_has_no_loop();
    if traversal.is_radial(grid, closed) {
        return Ok(None);
    }
    Ok(Some(halve(&mut traversal, grid, closed, &mut kept)))
}

// Keeps the first flags as they are, and unsets the others.
fn keep_first(closed: &[bool], count: u32, kept: &mut [bool])
    requires { length kept.old ≡ length closed.now }
    ensures { (d : ℕ) → slice_index_or kept.new d false ≡ first_flags closed.now count d }
{
    for (d, flag) in kept.iter_mut().enumerate() {
        *flag = d < count as usize && closed[d];
    }
}

// The first device that closes a loop, where there is one: halves the devices among which it is.
fn halve(traversal: &mut Traversal, grid: &Grid, closed: &[bool], kept: &mut [bool]) -> DeviceId
    requires each { length traversal.old.depths ≡ length grid.now.nodes }
    requires states { length closed.now ≡ length grid.now.devices }
    requires kept { length kept.old ≡ length closed.now }
    requires loops { IsRadial (switched grid.now closed.now) → ⊥ }
    ensures { first_loop (switched grid.now closed.now) ≡ Some result.0 }
{
    radial_before();
    let mut low = 0;
    let mut high = grid.devices();
    while low + 1 < high {
        let middle = low + (high - low) / 2;
        keep_first(closed, middle, kept);
        if traversal.is_radial(grid, kept) {
            low = middle;
        } else {
            high = middle;
        }
    }
    DeviceId(low)
}
