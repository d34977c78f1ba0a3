//! The devices that can feed more, by number.
ghost use Rattle.std.specs.Prelude.{◌≡◌, ◌<◌, ℕ, true, length, slice_set};
ghost use Rattle.grid_model.specs.Places.{touches};
ghost use Rattle.radial_forest.specs.Traversed.{node_at};
ghost use Rattle.radial_forest.specs.Forested.{IsForestOf};
ghost use Rattle.restore_plan.specs.Barred.{flagged};
ghost use Rattle.restore_plan.specs.Restoring.{has_one_fed_end, is_ready};
ghost use Rattle.restore_plan.specs.Queueing.{entry_of, IsRight, IsQueued};

use due_queue::DueQueue;
use grid_model::{DeviceId, Grid, NodeId, Stamp};
use radial_forest::Forest;

// Whether exactly one end of a device is fed.
fn has_one_fed_end(grid: &Grid, forest: &Forest, d: DeviceId) -> bool
    requires of_grid { IsForestOf grid.now forest.now.closed forest.now }
    requires device { d.0 < length grid.now.devices }
    ensures { result ≡ has_one_fed_end grid.now forest.now.closed d.0 }
{
    let (from, to) = grid.ends(d);
    forest.is_fed(grid, from) != forest.is_fed(grid, to)
}

// Whether a device is open, isn't barred and has exactly one fed end.
fn is_ready(grid: &Grid, barred: &[bool], forest: &Forest, d: DeviceId) -> bool
    requires each { length barred.now ≡ length grid.now.devices }
    requires of_grid { IsForestOf grid.now forest.now.closed forest.now }
    requires device { d.0 < length grid.now.devices }
    ensures { result ≡ is_ready grid.now (flagged barred.now) forest.now.closed d.0 }
{
    !barred[d.0 as usize] && !forest.is_closed(d) && has_one_fed_end(grid, forest, d)
}

// Gives the device its entry in the queue.
fn queue_device(grid: &Grid, barred: &[bool], forest: &Forest, d: DeviceId, queue: &mut DueQueue)
    requires each { length barred.now ≡ length grid.now.devices }
    requires of_grid { IsForestOf grid.now forest.now.closed forest.now }
    requires device { d.0 < length grid.now.devices }
    requires queue { length queue.old ≡ length grid.now.devices }
    ensures { queue.new ≡ slice_set queue.old d.0 (entry_of (is_ready grid.now (flagged barred.now) forest.now.closed d.0)) }
{
    if is_ready(grid, barred, forest, d) {
        queue.set(d.0, Stamp(0));
    } else {
        queue.clear(d.0);
    }
}

// Gives each device its entry in the queue.
pub(crate) fn queue_all(grid: &Grid, barred: &[bool], forest: &Forest, queue: &mut DueQueue)
    requires each { length barred.now ≡ length grid.now.devices }
    requires of_grid { IsForestOf grid.now forest.now.closed forest.now }
    requires queue { length queue.old ≡ length grid.now.devices }
    ensures { IsQueued grid.now (flagged barred.now) forest.now.closed queue.new }
{
    for d in 0..grid.devices() {
        queue_device(grid, barred, forest, DeviceId(d), queue);
    }
}

// Gives each device that ends at the node its entry in the queue.
fn queue_around(grid: &Grid, barred: &[bool], forest: &Forest, n: NodeId, queue: &mut DueQueue)
    requires each { length barred.now ≡ length grid.now.devices }
    requires of_grid { IsForestOf grid.now forest.now.closed forest.now }
    requires node { n.0 < length grid.now.nodes }
    requires queue { length queue.old ≡ length grid.now.devices }
    ensures each { length queue.new ≡ length grid.now.devices }
    ensures kept { (d : ℕ) → IsRight grid.now (flagged barred.now) forest.now.closed queue.old d
        → IsRight grid.now (flagged barred.now) forest.now.closed queue.new d }
    ensures around { (d : ℕ) → d < length grid.now.devices → touches grid.now d n.0 ≡ true
        → IsRight grid.now (flagged barred.now) forest.now.closed queue.new d }
{
    for d in grid.incident(n) {
        queue_device(grid, barred, forest, *d, queue);
    }
}

// The same at each node of a list.
pub(crate) fn queue_around_all(
    grid: &Grid,
    barred: &[bool],
    forest: &Forest,
    nodes: &[NodeId],
    queue: &mut DueQueue,
)
    requires each { length barred.now ≡ length grid.now.devices }
    requires of_grid { IsForestOf grid.now forest.now.closed forest.now }
    requires nodes { (k : ℕ) → k < length nodes.now → node_at nodes.now k < length grid.now.nodes }
    requires queue { length queue.old ≡ length grid.now.devices }
    ensures each { length queue.new ≡ length grid.now.devices }
    ensures kept { (d : ℕ) → IsRight grid.now (flagged barred.now) forest.now.closed queue.old d
        → IsRight grid.now (flagged barred.now) forest.now.closed queue.new d }
    ensures around { (k d : ℕ) → k < length nodes.now → d < length grid.now.devices → touches grid.now d (node_at nodes.now k) ≡ true
        → IsRight grid.now (flagged barred.now) forest.now.closed queue.new d }
{
    for n in nodes {
        queue_around(grid, barred, forest, *n, queue);
    }
}
