//! The trees of a radial network.
ghost use Rattle.std.specs.Prelude.{◌≡◌, ◌<◌, ℕ, Bool, true, length};
ghost use Rattle.grid_model.specs.Network.{network_in, network_of};
ghost use Rattle.grid_model.specs.Sound.{IsSoundParts};
ghost use Rattle.radial_forest.specs.Spreading.{is_reached, IsPartial};
ghost use Rattle.radial_forest.specs.Rooting.{HasRootOfUpper};

use crate::traversal::{Traversal, other_end};
use grid_model::{DeviceId, Grid, NodeId};
use outage_rules::{
    forest_is_radial, live_is_a_walk, loop_is_a_walk, radial_by_roots, radial_is_forest,
};
use std::alloc::{AllocError, Global};
use std::marker::Model;

/// The trees that closed devices make of the nodes of a radial network. A tree that is fed has its
/// source as root, and another one of its nodes.
#[derive(Drop)]
pub struct Forest {
    traversal: Traversal,
    closed: Vec<bool>,
    roots: Vec<NodeId>,
}

impl Model for Forest {
    ghost use Rattle.radial_forest.specs.Forested.{Forested};

    ghost Value = { Forested };

    ghost use Rattle.radial_forest.specs.ForestedInside.{forested_of, HasRoomInside};

    ghost view = { forested_of };

    ghost invariant = { HasRoomInside };
}

// Gives each node that hangs the root of the node above it, and each other node itself.
fn fill_roots(grid: &Grid, traversal: &Traversal, roots: &mut [NodeId])
    requires sound { IsSoundParts grid.now }
    requires each { length roots.old ≡ length grid.now.nodes }
    requires partial { (closed : ℕ → Bool) × IsPartial (network_in grid.now closed) traversal.now }
    ensures { (n : ℕ) → n < length grid.now.nodes → is_reached traversal.now n ≡ true
        → HasRootOfUpper (network_of grid.now) traversal.now roots.new n }
{
    for n in traversal.order() {
        roots[n.0 as usize] = match traversal.parent(*n) {
            None => *n,
            Some(d) => roots[other_end(grid, d, *n).0 as usize],
        };
    }
}

impl Forest {
    ghost use Rattle.std.specs.Prelude.{◌≡◌, ◌≢◌, ◌<◌, ◌≤◌, ◌+◌, ◌↔◌, ℕ, Some, length, false, true, IsTrue, IfOk, slice_index_or, slice_set};
    ghost use Rattle.outage_rules.specs.Network.{IsRadial, only, nothing, is_live};
    ghost use Rattle.outage_rules.specs.Loops.{would_loop};
    ghost use Rattle.grid_model.specs.Network.{network_in};
    ghost use Rattle.radial_forest.specs.Traversed.{parent_in, node_at};
    ghost use Rattle.radial_forest.specs.Forested.{root_in, IsForestOf};
    ghost use Rattle.radial_forest.specs.Spreading.{switched};
    ghost use Rattle.radial_forest.specs.Lower.{IsAmong, IsCutOff, IsListing};

    /// The forest of a network where the flagged devices are closed: one flag a device. An error says
    /// that memory ran out.
    pub fn new(alloc: Global, grid: &Grid, closed: &[bool]) -> Result<Forest, AllocError>
        requires states { length closed.now ≡ length grid.now.devices }
        requires radial { IsRadial (network_in grid.now (λ d. slice_index_or closed.now d false)) }
        ensures forest { IfOk result (IsForestOf grid.now closed.now) }
        ensures own { IfOk result (λ f. IsForestOf grid.now f.closed f) }
    {
        let mut forest = Forest {
            traversal: Traversal::new(alloc, grid)?,
            closed: closed.to_vec(alloc)?,
            roots: vec![in alloc; NodeId(0); grid.nodes() as usize]?,
        };
        forest.grow(grid);
        Ok(forest)
    }

    /// Whether a device is closed.
    pub fn is_closed(&self, d: DeviceId) -> bool
        requires { d.0 < length self.now.closed }
        ensures { result ≡ slice_index_or self.now.closed d.0 false }
    {
        self.closed[d.0 as usize]
    }

    /// Whether each device is closed, by number.
    pub fn closed(&self) -> &[bool]
        ensures { result.now ≡ self.now.closed }
    {
        &self.closed
    }

    /// The device on the walk from a node to its root: none exactly at a root.
    pub fn parent(&self, n: NodeId) -> Option<DeviceId>
        requires { n.0 < length self.now.roots }
        ensures { result ≡ parent_in self.now.parents n.0 }
    {
        self.traversal.parent(n)
    }

    /// The root of the tree of a node: its source where it is fed.
    pub fn root_of(&self, grid: &Grid, n: NodeId) -> NodeId
        requires { n.0 < length self.now.roots }
        ensures { result.0 ≡ root_in self.now.roots n.0 }
    {
        self.roots[n.0 as usize]
    }

    /// Whether closed devices join a node to a source.
    pub fn is_fed(&self, grid: &Grid, n: NodeId) -> bool
        requires forest { IsForestOf grid.now self.now.closed self.now }
        requires node { n.0 < length grid.now.nodes }
        ensures { result ≡ is_live (network_in grid.now (λ d. slice_index_or self.now.closed d false)) nothing n.0 }
    {
        grid.is_source(self.root_of(grid, n))
    }

    /// Whether closing a device closes a loop, all sources being one point: a walk joins its ends, or
    /// both are fed.
    pub fn would_loop(&self, grid: &Grid, d: DeviceId) -> bool
        requires forest { IsForestOf grid.now self.now.closed self.now }
        requires device { d.0 < length grid.now.devices }
        ensures { result ≡ would_loop (network_in grid.now (λ e. slice_index_or self.now.closed e false)) d.0 }
    {
        live_is_a_walk();
        loop_is_a_walk();
        let (from, to) = grid.ends(d);
        self.root_of(grid, from) == self.root_of(grid, to)
            || (self.is_fed(grid, from) && self.is_fed(grid, to))
    }

    /// Opens or closes a device, and works all parents and roots out anew. Takes no memory.
    pub fn rebuild(&mut self, grid: &Grid, d: DeviceId, closed: bool)
        requires forest { IsForestOf grid.now self.old.closed self.old }
        requires device { d.0 < length grid.now.devices }
        requires radial { IsRadial (network_in grid.now (λ e. slice_index_or (slice_set self.old.closed d.0 closed) e false)) }
        ensures forest { IsForestOf grid.now (slice_set self.old.closed d.0 closed) self.new }
        ensures own { IsForestOf grid.now self.new.closed self.new }
    {
        self.closed[d.0 as usize] = closed;
        self.grow(grid);
    }

    /// Writes the nodes on the lower side of a closed device, each once, to the front of `into`, which
    /// has room for all nodes, and answers how many they are: those that opening the device cuts off
    /// from their root, which are dark then if they were fed. Takes no memory.
    pub fn walk_below(&self, grid: &Grid, d: DeviceId, into: &mut [NodeId]) -> usize
        requires of_grid { IsForestOf grid.now self.now.closed self.now }
        requires device { d.0 < length grid.now.devices }
        requires closed { slice_index_or self.now.closed d.0 false ≡ true }
        requires room { length grid.now.nodes ≤ length into.old }
        ensures count { result ≤ length into.new }
        ensures length { length into.new ≡ length into.old }
        ensures nodes { (k : ℕ) → k < result → node_at into.new k < length grid.now.nodes }
        ensures once { (j k : ℕ) → j < k → k < result → node_at into.new j ≢ node_at into.new k }
        ensures lower { (n : ℕ) → n < length grid.now.nodes → IsAmong n into.new result
            ↔ IsCutOff (network_in grid.now (λ e. slice_index_or self.now.closed e false)) self.now.roots d.0 n }
        ensures below { (n : ℕ) → n < length grid.now.nodes
            → is_live (network_in grid.now (λ e. slice_index_or self.now.closed e false)) nothing n ≡ true
            → IsAmong n into.new result
            ↔ (is_live (network_in grid.now (λ e. slice_index_or self.now.closed e false)) (only d.0) n ≡ false) }
    {
        live_is_a_walk();
        into[0] = self.lower_end(grid, d);
        let mut place = 0;
        let mut below = 1;
        while place < below {
            below = self.list_below(grid, place, below, into);
            place += 1;
        }
        below
    }

    // Whether a device leads from a node to its root.
    fn hangs_by(&self, n: NodeId, d: DeviceId) -> bool
        requires { n.0 < length self.now.roots }
        ensures { IsTrue result ↔ (parent_in self.now.parents n.0 ≡ Some d) }
    {
        self.parent(n) == Some(d)
    }

    // The end of a closed device that hangs by it from the other one.
    fn lower_end(&self, grid: &Grid, d: DeviceId) -> NodeId
        requires of_grid { IsForestOf grid.now self.now.closed self.now }
        requires device { d.0 < length grid.now.devices }
        requires closed { slice_index_or self.now.closed d.0 false ≡ true }
        ensures node { result.0 < length grid.now.nodes }
        ensures hangs { parent_in self.now.parents result.0 ≡ Some d }
    {
        let (from, to) = grid.ends(d);
        if self.hangs_by(from, d) { from } else { to }
    }

    // Lists what hangs from the node at a place of a list behind the nodes that are listed, and
    // answers how many they are then.
    fn list_below(&self, grid: &Grid, place: usize, count: usize, into: &mut [NodeId]) -> usize
        requires of_grid { IsForestOf grid.now self.now.closed self.now }
        requires room { length grid.now.nodes ≤ length into.old }
        requires place { place < count }
        requires count { count ≤ length into.old }
        requires listing { (d : ℕ) × IsListing (switched grid.now self.now.closed) self.now d into.old count place }
        ensures count { result ≤ length into.new }
        ensures length { length into.new ≡ length into.old }
        ensures listing { (d : ℕ) → IsListing (switched grid.now self.now.closed) self.now d into.old count place
            → IsListing (switched grid.now self.now.closed) self.now d into.new result (place + 1) }
    {
        let n = into[place];
        let mut listed = count;
        for e in grid.incident(n) {
            let m = other_end(grid, *e, n);
            if self.hangs_by(m, *e) {
                into[listed] = m;
                listed += 1;
            }
        }
        listed
    }

    // Works the parents and the roots out, by the devices that are closed.
    fn grow(&mut self, grid: &Grid)
        requires states { length self.old.closed ≡ length grid.now.devices }
        requires each { length self.old.roots ≡ length grid.now.nodes }
        requires radial { IsRadial (network_in grid.now (λ d. slice_index_or self.old.closed d false)) }
        ensures { IsForestOf grid.now self.old.closed self.new }
    {
        radial_is_forest();
        forest_is_radial();
        radial_by_roots();
        live_is_a_walk();
        self.traversal.walk_all(grid, &self.closed);
        fill_roots(grid, &self.traversal, &mut self.roots);
    }
}
