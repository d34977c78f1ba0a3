//! The walk over a network in its starting state.
ghost use Rattle.std.specs.Prelude.{◌≡◌, ℕ, false, length, vec_len, slice_index_or, IfOk};
ghost use Rattle.grid_model.specs.Places.{device_at};
ghost use Rattle.grid_model.specs.Network.{network_of};
ghost use Rattle.grid_model.specs.Sound.{IsSoundParts};
ghost use Rattle.radial_forest.specs.Traversed.{IsTraversed};

use grid_model::{DeviceId, Grid};
use radial_forest::Traversal;
use std::alloc::{AllocError, Global};

// Which devices start closed.
pub(crate) fn starting_states(alloc: Global, grid: &Grid) -> Result<Vec<bool>, AllocError>
    ensures count { IfOk result (λ closed. vec_len closed ≡ length grid.now.devices) }
    ensures sound { IsSoundParts grid.now }
    ensures states { IfOk result (λ closed. (d : ℕ) → slice_index_or closed.items d false ≡ (device_at grid.now d).starts_closed) }
{
    let mut closed = vec![in alloc; false; grid.devices() as usize]?;
    for d in 0..grid.devices() {
        closed[d as usize] = grid.device(DeviceId(d)).starts_closed;
    }
    Ok(closed)
}

// The walk over the starting states.
pub(crate) fn starting_traversal(alloc: Global, grid: &Grid) -> Result<Traversal, AllocError>
    ensures sound { IsSoundParts grid.now }
    ensures traversed { IfOk result (IsTraversed (network_of grid.now)) }
{
    let closed = starting_states(alloc, grid)?;
    let mut traversal = Traversal::new(alloc, grid)?;
    traversal.walk(grid, &closed);
    Ok(traversal)
}
