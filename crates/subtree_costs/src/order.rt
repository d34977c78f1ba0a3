//! An order of all nodes of a forest, each after the node that it hangs from.
ghost use Rattle.std.specs.Prelude.{◌≡◌, ◌<◌, ◌≤◌, ◌+◌, ◌↔◌, Some, None, IsTrue, length};
ghost use Rattle.radial_forest.specs.Traversed.{parent_in};
ghost use Rattle.radial_forest.specs.Spreading.{switched};
ghost use Rattle.radial_forest.specs.Forested.{IsForestOf};
ghost use Rattle.subtree_costs.specs.Listing.{IsOrder, AreTops, IsListing};

use crate::above::{hangs_by, is_root, other_end};
use grid_model::{DeviceId, Grid, NodeId};
use radial_forest::Forest;

// Puts the roots to the front of a list, and answers how many they are.
fn list_tops(grid: &Grid, forest: &Forest, list: &mut [NodeId]) -> usize
    requires of_grid { IsForestOf grid.now forest.now.closed forest.now }
    requires room { length list.old ≡ length grid.now.nodes }
    ensures count { result ≤ length list.new }
    ensures length { length list.new ≡ length list.old }
    ensures listing { IsListing (switched grid.now forest.now.closed) forest.now.parents list.new result 0 }
{
    let mut count = 0;
    for n in 0..grid.nodes() {
        if is_root(forest, NodeId(n)) {
            list[count] = NodeId(n);
            count += 1;
        }
    }
    count
}

// Lists what hangs from the node at a place of a list behind the nodes that are listed, and answers
// how many they are then.
fn list_below(
    grid: &Grid,
    forest: &Forest,
    place: usize,
    count: usize,
    list: &mut [NodeId],
) -> usize
    requires of_grid { IsForestOf grid.now forest.now.closed forest.now }
    requires room { length list.old ≡ length grid.now.nodes }
    requires place { place < count }
    requires count { count ≤ length list.old }
    requires listing { IsListing (switched grid.now forest.now.closed) forest.now.parents list.old count place }
    ensures count { result ≤ length list.new }
    ensures length { length list.new ≡ length list.old }
    ensures listing { IsListing (switched grid.now forest.now.closed) forest.now.parents list.new result (place + 1) }
{
    let n = list[place];
    let mut listed = count;
    for d in grid.incident(n) {
        let m = other_end(grid, *d, n);
        if hangs_by(forest, m, *d) {
            list[listed] = m;
            listed += 1;
        }
    }
    listed
}

// Lists all nodes, each once: the roots, and each other node after the one that it hangs from.
pub(crate) fn list_all(grid: &Grid, forest: &Forest, list: &mut [NodeId])
    requires of_grid { IsForestOf grid.now forest.now.closed forest.now }
    requires room { length list.old ≡ length grid.now.nodes }
    ensures length { length list.new ≡ length list.old }
    ensures order { IsOrder (switched grid.now forest.now.closed) forest.now.parents list.new (length list.new) }
{
    let mut count = list_tops(grid, forest, list);
    let mut place = 0;
    while place < count {
        count = list_below(grid, forest, place, count, list);
        place += 1;
    }
}
