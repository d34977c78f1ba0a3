//! A walk over a network from its sources, along closed devices.
ghost use Rattle.std.specs.Prelude.{◌≡◌, ◌<◌, length};
ghost use Rattle.grid_model.specs.Network.{network_of};
ghost use Rattle.outage_rules.specs.Certificate.{other_end};

use grid_model::{DeviceId, Grid, NodeId};
use outage_rules::{forest_is_radial, live_is_a_walk, radial_by_roots, radial_is_forest};
use std::alloc::{AllocError, Global};
use std::marker::Model;

/// The nodes that closed devices join to the sources, each after the node from which it was reached.
#[derive(Drop)]
pub struct Traversal {
    order: Vec<NodeId>,
    parents: Vec<Option<DeviceId>>,
    depths: Vec<Option<u32>>,
    reached: usize,
}

impl Model for Traversal {
    ghost use Rattle.radial_forest.specs.Traversed.{Traversed};

    ghost Value = { Traversed };

    ghost use Rattle.radial_forest.specs.TraversedInside.{traversed_of, IsWholeInside};

    ghost view = { traversed_of };

    ghost invariant = { IsWholeInside };
}

// The end of a device that isn't this node.
pub(crate) fn other_end(grid: &Grid, d: DeviceId, n: NodeId) -> NodeId
    requires { d.0 < length grid.now.devices }
    ensures { result.0 ≡ other_end (network_of grid.now) d.0 n.0 }
{
    let (from, to) = grid.ends(d);
    if to == n { from } else { to }
}

impl Traversal {
    ghost use Rattle.std.specs.Prelude.{◌≡◌, ◌<◌, ◌≤◌, ◌+◌, ◌↔◌, IsTrue, ℕ, Bool, length, IfOk, slice_index_or, false, true, is_some};
    ghost use Rattle.grid_model.specs.Network.{network_of, network_in};
    ghost use Rattle.grid_model.specs.Places.{is_source};
    ghost use Rattle.grid_model.specs.Sound.{IsSoundParts};
    ghost use Rattle.outage_rules.specs.Network.{IsRadial, nothing, is_live};
    ghost use Rattle.outage_rules.specs.Certificate.{IsForest, IsWhole};
    ghost use Rattle.radial_forest.specs.Traversed.{parent_in, depth_in, node_at, table_of, IsTraversed};
    ghost use Rattle.radial_forest.specs.Spreading.{switched, unreached, reaching, hanging, is_reached, is_root};
    ghost use Rattle.radial_forest.specs.Spreading.{IsPartial, Grows, AreSourcesFirst, IsDone, AreDone, IsSettled, IsParent, AreParents};

    /// Room for the nodes of this network, of which none is reached yet. An error says that memory
    /// ran out.
    pub fn new(alloc: Global, grid: &Grid) -> Result<Traversal, AllocError>
        ensures each { IfOk result (λ t. length t.depths ≡ length grid.now.nodes) }
        ensures unreached { IfOk result (λ t. t ≡ unreached (length grid.now.nodes)) }
    {
        let nodes = grid.nodes() as usize;
        Ok(Traversal {
            order: vec![in alloc; NodeId(0); nodes]?,
            parents: vec![in alloc; None; nodes]?,
            depths: vec![in alloc; None; nodes]?,
            reached: 0,
        })
    }

    /// Walks the network anew, from its sources along the closed devices: one state a device.
    /// Takes no memory.
    pub fn walk(&mut self, grid: &Grid, closed: &[bool])
        requires each { length self.old.depths ≡ length grid.now.nodes }
        requires states { length closed.now ≡ length grid.now.devices }
        ensures traversed { IsTraversed (network_in grid.now (λ d. slice_index_or closed.now d false)) self.new }
        ensures sources_first { (j k : ℕ) → j < k → k < length self.new.order
            → is_source grid.now (node_at self.new.order k) ≡ true → is_source grid.now (node_at self.new.order j) ≡ true }
        ensures fed { (n : ℕ) → n < length grid.now.nodes → is_some (depth_in self.new.depths n)
            ≡ is_live (network_in grid.now (λ d. slice_index_or closed.now d false)) nothing n }
        ensures forest { IsRadial (network_in grid.now (λ d. slice_index_or closed.now d false))
            → IsForest (network_in grid.now (λ d. slice_index_or closed.now d false)) (table_of self.new) }
    {
        self.feed(grid, closed);
        live_is_a_walk();
        radial_is_forest();
    }

    /// Whether the closed devices close no loop, all sources being one point: one state a device.
    /// Takes no memory. What the traversal holds afterwards is open, but for its room.
    pub fn is_radial(&mut self, grid: &Grid, closed: &[bool]) -> bool
        requires each { length self.old.depths ≡ length grid.now.nodes }
        requires states { length closed.now ≡ length grid.now.devices }
        ensures radial { IsTrue result ↔ IsRadial (network_in grid.now (λ d. slice_index_or closed.now d false)) }
        ensures each { length self.new.depths ≡ length grid.now.nodes }
    {
        self.walk_all(grid, closed);
        radial_is_forest();
        forest_is_radial();
        radial_by_roots();
        self.are_parents(grid, closed)
    }

    // Walks the network anew and to each node: from the sources, and then from one node of each part
    // that no source feeds.
    pub(crate) fn walk_all(&mut self, grid: &Grid, closed: &[bool])
        requires each { length self.old.depths ≡ length grid.now.nodes }
        requires states { length closed.now ≡ length grid.now.devices }
        ensures sound { IsSoundParts grid.now }
        ensures settled { IsSettled (switched grid.now closed.now) self.new }
        ensures all { (n : ℕ) → n < length grid.now.nodes → is_reached self.new n ≡ true }
    {
        self.feed(grid, closed);
        self.root_all(grid, closed);
    }

    /// The fed nodes: sources first, and each other node after the one that it hangs from.
    pub fn order(&self) -> &[NodeId]
        ensures { result.now ≡ self.now.order }
    {
        &self.order[..self.reached]
    }

    /// The device from which a node hangs: none for a source, and for a node that isn't fed.
    pub fn parent(&self, n: NodeId) -> Option<DeviceId>
        requires { n.0 < length self.now.depths }
        ensures { result ≡ parent_in self.now.parents n.0 }
    {
        self.parents[n.0 as usize]
    }

    /// How many devices are between a node and its source: none for a node that isn't fed.
    pub fn depth(&self, n: NodeId) -> Option<u32>
        requires { n.0 < length self.now.depths }
        ensures { result ≡ depth_in self.now.depths n.0 }
    {
        self.depths[n.0 as usize]
    }

    // Forgets what was reached.
    fn clear(&mut self)
        ensures { self.new ≡ unreached (length self.old.depths) }
    {
        self.reached = 0;
        self.parents.fill(None);
        self.depths.fill(None);
    }

    // Puts a node behind the others.
    fn reach(&mut self, n: NodeId, parent: Option<DeviceId>, depth: u32)
        requires node { n.0 < length self.old.depths }
        requires room { length self.old.order < length self.old.depths }
        ensures { self.new ≡ reaching self.old n parent depth }
    {
        self.order[self.reached] = n;
        self.reached += 1;
        self.parents[n.0 as usize] = parent;
        self.depths[n.0 as usize] = Some(depth);
    }

    // Whether a node has been reached.
    fn is_reached(&self, n: NodeId) -> bool
        requires { n.0 < length self.now.depths }
        ensures { result ≡ is_reached self.now n.0 }
    {
        self.depths[n.0 as usize].is_some()
    }

    // Hangs a node from a device, unless it is reached already.
    fn hang(&mut self, n: NodeId, d: DeviceId, depth: u32)
        requires node { n.0 < length self.old.depths }
        requires room { is_reached self.old n.0 ≡ false → length self.old.order < length self.old.depths }
        ensures { self.new ≡ hanging self.old n d depth }
    {
        if !self.is_reached(n) {
            self.reach(n, Some(d), depth);
        }
    }

    // The depth of what hangs from a node.
    fn depth_below(&self, n: NodeId) -> u32
        requires node { n.0 < length self.now.depths }
        requires shallow { (table_of self.now).depth n.0 < 1_000_000 }
        ensures { is_reached self.now n.0 ≡ true → result ≡ (table_of self.now).depth n.0 + 1 }
    {
        self.depths[n.0 as usize].map_or(0, |depth| depth + 1)
    }

    // Goes along each closed device at a node.
    fn go_around(&mut self, grid: &Grid, closed: &[bool], n: NodeId)
        requires sound { IsSoundParts grid.now }
        requires states { length closed.now ≡ length grid.now.devices }
        requires node { n.0 < length grid.now.nodes }
        requires reached { is_reached self.old n.0 ≡ true }
        requires partial { IsPartial (switched grid.now closed.now) self.old }
        ensures partial { IsPartial (switched grid.now closed.now) self.new }
        ensures grows { Grows self.old self.new }
        ensures done { IsDone (switched grid.now closed.now) self.new n.0 }
    {
        let depth = self.depth_below(n);
        for d in grid.incident(n) {
            if closed[d.0 as usize] {
                self.hang(other_end(grid, *d, n), *d, depth);
            }
        }
    }

    // Goes around each node of the order from a place on, and around what is reached by that.
    fn spread(&mut self, grid: &Grid, closed: &[bool], start: usize)
        requires sound { IsSoundParts grid.now }
        requires states { length closed.now ≡ length grid.now.devices }
        requires partial { IsPartial (switched grid.now closed.now) self.old }
        requires start { start ≤ length self.old.order }
        requires done { AreDone (switched grid.now closed.now) self.old start }
        ensures partial { IsPartial (switched grid.now closed.now) self.new }
        ensures grows { Grows self.old self.new }
        ensures whole { IsWhole (switched grid.now closed.now) (table_of self.new) }
    {
        let mut place = start;
        while place < self.reached {
            let n = self.order[place];
            self.go_around(grid, closed, n);
            place += 1;
        }
    }

    // Reaches the sources, and nothing else.
    fn reach_sources(&mut self, grid: &Grid)
        requires each { length self.old.depths ≡ length grid.now.nodes }
        requires unreached { self.old ≡ unreached (length grid.now.nodes) }
        ensures sound { IsSoundParts grid.now }
        ensures partial { (closed : ℕ → Bool) → IsPartial (network_in grid.now closed) self.new }
        ensures reached { (n : ℕ) → is_reached self.new n ≡ is_source grid.now n }
        ensures roots { (n : ℕ) → is_root self.new n ≡ is_source grid.now n }
    {
        for n in 0..grid.nodes() {
            if grid.is_source(NodeId(n)) {
                self.reach(NodeId(n), None, 0);
            }
        }
    }

    // Reaches what closed devices join to the sources.
    fn feed(&mut self, grid: &Grid, closed: &[bool])
        requires each { length self.old.depths ≡ length grid.now.nodes }
        requires states { length closed.now ≡ length grid.now.devices }
        ensures sound { IsSoundParts grid.now }
        ensures partial { IsPartial (switched grid.now closed.now) self.new }
        ensures whole { IsWhole (switched grid.now closed.now) (table_of self.new) }
        ensures roots { (n : ℕ) → is_root self.new n ≡ is_source grid.now n }
        ensures sources_first { AreSourcesFirst (switched grid.now closed.now) self.new }
    {
        self.clear();
        self.reach_sources(grid);
        self.spread(grid, closed, 0);
    }

    // Makes a node a root, unless it is reached already, and reaches what closed devices join to it.
    fn root(&mut self, grid: &Grid, closed: &[bool], n: NodeId)
        requires sound { IsSoundParts grid.now }
        requires states { length closed.now ≡ length grid.now.devices }
        requires node { n.0 < length grid.now.nodes }
        requires settled { IsSettled (switched grid.now closed.now) self.old }
        ensures settled { IsSettled (switched grid.now closed.now) self.new }
        ensures kept { (v : ℕ) → is_reached self.old v ≡ true → is_reached self.new v ≡ true }
        ensures reached { is_reached self.new n.0 ≡ true }
    {
        if !self.is_reached(n) {
            let place = self.reached;
            self.reach(n, None, 0);
            self.spread(grid, closed, place);
        }
    }

    // Reaches each node, with a root in each part that no source feeds.
    fn root_all(&mut self, grid: &Grid, closed: &[bool])
        requires sound { IsSoundParts grid.now }
        requires states { length closed.now ≡ length grid.now.devices }
        requires settled { IsSettled (switched grid.now closed.now) self.old }
        ensures settled { IsSettled (switched grid.now closed.now) self.new }
        ensures all { (n : ℕ) → n < length grid.now.nodes → is_reached self.new n ≡ true }
    {
        for n in 0..grid.nodes() {
            self.root(grid, closed, NodeId(n));
        }
    }

    // Whether an end of the device hangs from it.
    fn is_parent(&self, grid: &Grid, d: DeviceId) -> bool
        requires sound { IsSoundParts grid.now }
        requires device { d.0 < length grid.now.devices }
        requires each { length self.now.depths ≡ length grid.now.nodes }
        ensures { IsTrue result ↔ IsParent (network_of grid.now) self.now d.0 }
    {
        let (from, to) = grid.ends(d);
        self.parents[from.0 as usize] == Some(d) || self.parents[to.0 as usize] == Some(d)
    }

    // Whether each closed device is the parent device of one of its ends.
    fn are_parents(&self, grid: &Grid, closed: &[bool]) -> bool
        requires states { length closed.now ≡ length grid.now.devices }
        requires each { length self.now.depths ≡ length grid.now.nodes }
        ensures { IsTrue result ↔ AreParents (switched grid.now closed.now) self.now (length grid.now.devices) }
    {
        for d in 0..grid.devices() {
            if closed[d as usize] && !self.is_parent(grid, DeviceId(d)) {
                return false;
            }
        }
        true
    }
}
