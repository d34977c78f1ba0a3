//! The network of parts whose devices stand open, once they start in their states.
ghost use Rattle.std.specs.Prelude.{◌≡◌, ℕ, length, Err, IfOk};
ghost use Rattle.grid_model.specs.Sound.{IsSoundParts};
ghost use Rattle.grid_reader.specs.declared.fault.GridRule.{GridRule};
ghost use Rattle.grid_reader.specs.Text.{IsGrid, IsRefusedAt};
ghost use Rattle.grid_reader.specs.Start.{started_in};

use crate::fault::{GridFault, GridRule};
use grid_model::{Grid, GridParts, Name, Names, network_is_sound};
use outage_rules::radial_has_no_loop;
use radial_forest::first_loop;
use std::alloc::{AllocError, Global};

/// The names by their numbers.
pub(crate) fn names_in_order(alloc: Global, names: &Names) -> Result<Vec<Name>, AllocError>
    ensures { IfOk result (λ all. all.items ≡ names.now) }
{
    let mut all = Vec::with_capacity(alloc, names.len())?;
    for number in 0..names.len() {
        all.push(names.name(number))?;
    }
    Ok(all)
}

/// The network of these parts with these devices closed, unless a device closes a loop: the first
/// one is refused at its line. There is one state and one line a device.
pub(crate) fn start(
    alloc: Global,
    parts: GridParts,
    closed: &[bool],
    device_lines: &[u32],
) -> Result<Grid, GridFault>
    requires sound { IsSoundParts parts }
    requires states { length closed.now ≡ length parts.devices }
    requires lines { length device_lines.now ≡ length parts.devices }
    ensures grid { IfOk result (λ grid. started_in parts closed.now device_lines.now ≡ IsGrid grid) }
    ensures refused { (line : ℕ) (rule : GridRule) → result ≡ Err (GridFault.Refused line rule) → started_in parts closed.now device_lines.now ≡ IsRefusedAt line rule }
{
    network_is_sound();
    radial_has_no_loop();
    let grid = Grid::build(alloc, parts)?;
    match first_loop(alloc, &grid, closed)? {
        Some(device) => Err(GridFault::Refused {
            line: device_lines[device.0 as usize],
            rule: GridRule::Loop,
        }),
        None => Ok(grid.starting(closed)),
    }
}
