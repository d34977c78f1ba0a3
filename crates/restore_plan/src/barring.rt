//! The devices that stay open while a device is isolated.
ghost use Rattle.std.specs.Prelude.{◌≡◌, ◌<◌, ◌==◌, ◌||◌, ℕ, false, length, replicate, vec_len, IfOk, All};
ghost use Rattle.std.specs.List.{list_any};
ghost use Rattle.grid_model.specs.Sound.{IsSoundParts};
ghost use Rattle.restore_plan.specs.Barred.{ends_at, is_barred, flagged};

use grid_model::{DeviceId, Grid, NodeId};
use std::alloc::{AllocError, Global};

// One flag a device: whether it is barred.
pub(crate) fn barred_devices(
    alloc: Global,
    grid: &Grid,
    cuts: &[DeviceId],
    fault: DeviceId,
) -> Result<Vec<bool>, AllocError>
    requires cuts { All (λ c. c.0 < length grid.now.devices) cuts.now }
    requires fault { fault.0 < length grid.now.devices }
    ensures sound { IfOk result (λ v. IsSoundParts grid.now) }
    ensures each { IfOk result (λ v. vec_len v ≡ length grid.now.devices) }
    ensures flags { IfOk result (λ v. (d : ℕ) → d < length grid.now.devices
        → flagged v.items d ≡ is_barred grid.now cuts.now fault.0 d) }
{
    let mut barred = vec![in alloc; false; grid.devices() as usize]?;
    bar(grid, cuts, fault, &mut barred);
    Ok(barred)
}

// Flags the barred devices, where none is flagged yet.
fn bar(grid: &Grid, cuts: &[DeviceId], fault: DeviceId, barred: &mut [bool])
    requires sound { IsSoundParts grid.now }
    requires cuts { All (λ c. c.0 < length grid.now.devices) cuts.now }
    requires fault { fault.0 < length grid.now.devices }
    requires unflagged { barred.old ≡ replicate (length grid.now.devices) false }
    ensures { (d : ℕ) → d < length grid.now.devices → flagged barred.new d ≡ is_barred grid.now cuts.now fault.0 d }
{
    barred[fault.0 as usize] = true;
    bar_all(cuts, barred);
    let (from, to) = grid.ends(fault);
    bar_around(grid, from, barred);
    bar_around(grid, to, barred);
}

// Flags the devices of a list.
fn bar_all(devices: &[DeviceId], barred: &mut [bool])
    requires { All (λ c. c.0 < length barred.old) devices.now }
    ensures { (d : ℕ) → flagged barred.new d ≡ (flagged barred.old d || list_any (λ c. c.0 == d) devices.now) }
{
    for device in devices {
        barred[device.0 as usize] = true;
    }
}

// Flags the devices that end at a node, unless that is a source.
fn bar_around(grid: &Grid, n: NodeId, barred: &mut [bool])
    requires each { length barred.old ≡ length grid.now.devices }
    requires node { n.0 < length grid.now.nodes }
    ensures { (d : ℕ) → d < length grid.now.devices → flagged barred.new d ≡ (flagged barred.old d || ends_at grid.now n.0 d) }
{
    if !grid.is_source(n) {
        bar_all(grid.incident(n), barred);
    }
}
