//! The plan that isolates a device.
ghost use Rattle.std.specs.Prelude.{◌≡◌, ◌≢◌, ◌↔◌, ◌<◌, ◌++◌, [], ◌∷◌, ℕ, true, false, not, length, map, slice_index_or, slice_set, Some, IfOk, All};
ghost use Rattle.std.specs.List.{count_by};
ghost use Rattle.outage_rules.specs.Network.{IsRadial, IsLive, nothing};
ghost use Rattle.outage_rules.specs.Loops.{first_below};
ghost use Rattle.grid_model.specs.declared.history.Want.TheVariants.{Closed};
ghost use Rattle.grid_model.specs.Network.{network_in};
ghost use Rattle.radial_forest.specs.Forested.{IsForestOf};
ghost use Rattle.restore_plan.specs.Barred.{is_barred, flagged};
ghost use Rattle.restore_plan.specs.States.{network_at, is_fed, state_of, after, before, move_at, Passes, Feeds};
ghost use Rattle.restore_plan.specs.Restoring.{is_ready, openings, AreMoves, unfed_meters};
ghost use Rattle.restore_plan.specs.Queueing.{IsQueued, IsQueuedBut};
ghost use Rattle.restore_plan.specs.RestoringInside.{IsRestored};

use crate::barring::barred_devices;
use crate::moves::{Move, Plan};
use crate::queueing::{queue_all, queue_around_all};
use due_queue::DueQueue;
use grid_model::{DeviceId, Grid, MeterId, NodeId, Stamp, Want, network_is_sound};
use radial_forest::Forest;
use std::alloc::{AllocError, Global};
use switching::{Change, decide};

/// The moves that isolate a device and feed again what can be fed, and the meters that stay unfed:
/// one flag a device, the closed ones radial. A device is barred where it is the fault, is among the
/// cuts, or has an end in common with the fault that is no source. First the closed barred devices
/// are opened, by number. Then, as long as an open device that isn't barred has exactly one fed end,
/// the one of least number is closed. An error says that memory ran out.
///
/// No device is moved twice. Each move takes one `Forest::rebuild`, and beside those the network is
/// passed over a fixed number of times, whatever the number of moves: a node gets fed once at most,
/// and only then are the devices that end at it looked at again, each with one change of a queue,
/// which is a binary heap.
pub fn plan(
    alloc: Global,
    grid: &Grid,
    closed: &[bool],
    cuts: &[DeviceId],
    fault: DeviceId,
) -> Result<Plan, AllocError>
    requires states { length closed.now ≡ length grid.now.devices }
    requires radial { IsRadial (network_at grid.now closed.now) }
    requires cuts { All (λ c. c.0 < length grid.now.devices) cuts.now }
    requires fault { fault.0 < length grid.now.devices }
    ensures moves { IfOk result (λ p. AreMoves grid.now (is_barred grid.now cuts.now fault.0) closed.now p.moves) }
    ensures unfed { IfOk result (λ p. map (λ m. m.0) p.unfed ≡ unfed_meters grid.now (after closed.now p.moves)) }
    ensures devices { IfOk result (λ p. (k : ℕ) → k < length p.moves
        → (move_at p.moves k).device.0 < length grid.now.devices) }
    ensures once { IfOk result (λ p. (j k : ℕ) → j < k → k < length p.moves
        → (move_at p.moves j).device.0 ≢ (move_at p.moves k).device.0) }
    ensures pass { IfOk result (λ p. (k : ℕ) → k < length p.moves
        → Passes grid.now (before closed.now p.moves k) (move_at p.moves k)) }
    ensures feed { IfOk result (λ p. (k : ℕ) → k < length p.moves → (move_at p.moves k).want ≡ Closed
        → Feeds grid.now (before closed.now p.moves k) (move_at p.moves k)) }
    ensures radial { IfOk result (λ p. IsRadial (network_at grid.now (after closed.now p.moves))) }
    ensures barred { IfOk result (λ p. (d : ℕ) → d < length grid.now.devices → is_barred grid.now cuts.now fault.0 d ≡ true
        → slice_index_or (after closed.now p.moves) d false ≡ false) }
    ensures fed { IfOk result (λ p. (n : ℕ) → n < length grid.now.nodes
        → (is_fed grid.now (after closed.now p.moves) n ≡ true)
        ↔ IsLive (network_in grid.now (λ d. not (is_barred grid.now cuts.now fault.0 d))) nothing n) }
{
    let barred = barred_devices(alloc, grid, cuts, fault)?;
    network_is_sound();
    plan_around(alloc, grid, closed, &barred)
}

// The plan that keeps the flagged devices open.
fn plan_around(
    alloc: Global,
    grid: &Grid,
    closed: &[bool],
    barred: &[bool],
) -> Result<Plan, AllocError>
    requires states { length closed.now ≡ length grid.now.devices }
    requires radial { IsRadial (network_at grid.now closed.now) }
    requires each { length barred.now ≡ length grid.now.devices }
    ensures moves { IfOk result (λ p. AreMoves grid.now (flagged barred.now) closed.now p.moves) }
    ensures unfed { IfOk result (λ p. map (λ m. m.0) p.unfed ≡ unfed_meters grid.now (after closed.now p.moves)) }
{
    let mut forest = Forest::new(alloc, grid, closed)?;
    let mut moves = Vec::new(alloc);
    isolate(grid, barred, &mut forest, &mut moves)?;
    restore(alloc, grid, barred, &mut forest, &mut moves)?;
    let unfed = list_unfed(alloc, grid, &forest)?;
    Ok(Plan { moves, unfed })
}

// Makes a move, which the switching rule lets pass and which changes a state.
fn make_move(
    grid: &Grid,
    device: DeviceId,
    want: Want,
    forest: &mut Forest,
    moves: &mut Vec<Move>,
) -> Result<(), AllocError>
    requires of_grid { IsForestOf grid.now forest.old.closed forest.old }
    requires device { device.0 < length grid.now.devices }
    requires passes { Passes grid.now forest.old.closed (record { device = device; want = want }) }
    ensures of_grid { IfOk result (λ done. IsForestOf grid.now forest.new.closed forest.new) }
    ensures states { IfOk result (λ done. forest.new.closed ≡ slice_set forest.old.closed device.0 (state_of want)) }
    ensures moves { IfOk result (λ done. moves.new.items ≡ moves.old.items ++ (record { device = device; want = want }) ∷ []) }
{
    match decide(grid, forest, device, want) {
        Ok(Change::Opens) => forest.rebuild(grid, device, false),
        Ok(Change::Closes) => forest.rebuild(grid, device, true),
        _ => unreachable!(),
    }
    moves.push(Move { device, want })?;
    Ok(())
}

// Opens the closed barred devices, by number.
fn isolate(
    grid: &Grid,
    barred: &[bool],
    forest: &mut Forest,
    moves: &mut Vec<Move>,
) -> Result<(), AllocError>
    requires each { length barred.now ≡ length grid.now.devices }
    requires of_grid { IsForestOf grid.now forest.old.closed forest.old }
    requires first { moves.old.items ≡ [] }
    ensures of_grid { IfOk result (λ done. IsForestOf grid.now forest.new.closed forest.new) }
    ensures states { IfOk result (λ done. forest.new.closed
        ≡ after forest.old.closed (openings grid.now (flagged barred.now) forest.old.closed)) }
    ensures moves { IfOk result (λ done. moves.new.items ≡ openings grid.now (flagged barred.now) forest.old.closed) }
{
    for d in 0..grid.devices() {
        if barred[d as usize] && forest.is_closed(DeviceId(d)) {
            make_move(grid, DeviceId(d), Want::Opened, forest, moves)?;
        }
    }
    Ok(())
}

// Closes the ready device of least number, which was taken out of the queue, and queues what gets
// ready or stops being so: only devices at the nodes that get fed.
fn close(
    grid: &Grid,
    barred: &[bool],
    d: DeviceId,
    forest: &mut Forest,
    fed: &mut [NodeId],
    queue: &mut DueQueue,
    moves: &mut Vec<Move>,
) -> Result<(), AllocError>
    requires each { length barred.now ≡ length grid.now.devices }
    requires of_grid { IsForestOf grid.now forest.old.closed forest.old }
    requires first { first_below (length grid.now.devices) (is_ready grid.now (flagged barred.now) forest.old.closed) ≡ Some d.0 }
    requires room { length grid.now.nodes ≡ length fed.old }
    requires queue { IsQueuedBut grid.now (flagged barred.now) forest.old.closed queue.old d.0 }
    ensures of_grid { IfOk result (λ done. IsForestOf grid.now forest.new.closed forest.new) }
    ensures states { IfOk result (λ done. forest.new.closed ≡ slice_set forest.old.closed d.0 true) }
    ensures moves { IfOk result (λ done. moves.new.items ≡ moves.old.items ++ (record { device = d; want = Closed }) ∷ []) }
    ensures queue { IfOk result (λ done. IsQueued grid.now (flagged barred.now) forest.new.closed queue.new) }
    ensures fewer { IfOk result (λ done. count_by not forest.new.closed < count_by not forest.old.closed) }
{
    make_move(grid, d, Want::Closed, forest, moves)?;
    let count = forest.walk_below(grid, d, fed);
    queue_around_all(grid, barred, forest, &fed[..count], queue);
    Ok(())
}

// Closes the ready device of least number, until none is ready: the queue has the ready ones, and
// there is room for all nodes.
fn close_all(
    grid: &Grid,
    barred: &[bool],
    forest: &mut Forest,
    fed: &mut [NodeId],
    queue: &mut DueQueue,
    moves: &mut Vec<Move>,
) -> Result<(), AllocError>
    requires each { length barred.now ≡ length grid.now.devices }
    requires of_grid { IsForestOf grid.now forest.old.closed forest.old }
    requires room { length grid.now.nodes ≡ length fed.old }
    requires queue { IsQueued grid.now (flagged barred.now) forest.old.closed queue.old }
    ensures of_grid { IfOk result (λ done. IsForestOf grid.now forest.new.closed forest.new) }
    ensures closings { IfOk result (λ done. IsRestored grid.now (flagged barred.now) forest.old.closed moves.old.items forest.new.closed moves.new.items) }
{
    'closings: while let Some(d) = queue.pop_due(Stamp(0)) {
        close(grid, barred, DeviceId(d), forest, fed, queue, moves)?;
    }
    Ok(())
}

// Closes the ready device of least number, until none is ready.
fn restore(
    alloc: Global,
    grid: &Grid,
    barred: &[bool],
    forest: &mut Forest,
    moves: &mut Vec<Move>,
) -> Result<(), AllocError>
    requires each { length barred.now ≡ length grid.now.devices }
    requires of_grid { IsForestOf grid.now forest.old.closed forest.old }
    ensures of_grid { IfOk result (λ done. IsForestOf grid.now forest.new.closed forest.new) }
    ensures closings { IfOk result (λ done. IsRestored grid.now (flagged barred.now) forest.old.closed moves.old.items forest.new.closed moves.new.items) }
{
    let mut queue = DueQueue::new(alloc, grid.devices())?;
    let mut fed = vec![in alloc; NodeId(0); grid.nodes() as usize]?;
    queue_all(grid, barred, forest, &mut queue);
    close_all(grid, barred, forest, &mut fed, &mut queue, moves)
}

// The meters whose node isn't fed.
fn list_unfed(alloc: Global, grid: &Grid, forest: &Forest) -> Result<Vec<MeterId>, AllocError>
    requires of_grid { IsForestOf grid.now forest.now.closed forest.now }
    ensures { IfOk result (λ v. map (λ m. m.0) v.items ≡ unfed_meters grid.now forest.now.closed) }
{
    let mut unfed = Vec::new(alloc);
    for m in 0..grid.meters() {
        if !forest.is_fed(grid, grid.meter(MeterId(m)).node) {
            unfed.push(MeterId(m))?;
        }
    }
    Ok(unfed)
}
