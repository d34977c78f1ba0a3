//! One flag a node, and the nodes whose flags changed since a beginning.
ghost use Rattle.std.specs.Prelude.{◌≡◌, ◌<◌, ◌≤◌, length};
ghost use Rattle.radial_forest.specs.Traversed.{node_at};
ghost use Rattle.diagnosis.specs.Watched.{AreDifferences};

use grid_model::NodeId;
use std::alloc::{AllocError, Global};
use std::marker::Model;

/// Flags by the number of a node. Those that differ from what they were at the last beginning stand
/// in a list, and each knows its place there.
#[derive(Drop)]
pub(crate) struct NodeFlags {
    flags: Vec<bool>,
    begun: Vec<bool>,
    named: Vec<NodeId>,
    places: Vec<usize>,
    count: usize,
}

impl Model for NodeFlags {
    ghost use Rattle.grid_model.specs.declared.parts.NodeId.{NodeId};
    ghost use Rattle.diagnosis.specs.Watched.{Watched};

    ghost Value = { Watched NodeId };

    ghost use Rattle.diagnosis.specs.NodesInside.{watched_nodes, AreWatchedNodes};

    ghost view = { watched_nodes };

    ghost invariant = { AreWatchedNodes };
}

// The flags that are named become what they are now.
fn forget(named: &[NodeId], now: &[bool], begun: &mut [bool])
    requires each { length begun.old ≡ length now.now }
    requires named { AreDifferences begun.old now.now (length named.now) (node_at named.now) }
    ensures { begun.new ≡ now.now }
{
    for n in named {
        begun[n.0 as usize] = now[n.0 as usize];
    }
}

impl NodeFlags {
    ghost use Rattle.std.specs.Prelude.{◌≡◌, ◌<◌, ◌^◌, [], false, length, replicate, slice_set, IfOk};
    ghost use Rattle.radial_forest.specs.Traversed.{node_at};
    ghost use Rattle.diagnosis.specs.Judgement.{flag_in};
    ghost use Rattle.diagnosis.specs.Watched.{AreDifferences};

    // No node is flagged, and nothing changed. An error says that memory ran out.
    pub(crate) fn new(alloc: Global, nodes: usize) -> Result<NodeFlags, AllocError>
        ensures flags { IfOk result (λ flags. flags.flags ≡ replicate nodes false) }
        ensures begun { IfOk result (λ flags. flags.begun ≡ replicate nodes false) }
        ensures named { IfOk result (λ flags. flags.named ≡ []) }
    {
        Ok(NodeFlags {
            flags: vec![in alloc; false; nodes]?,
            begun: vec![in alloc; false; nodes]?,
            named: vec![in alloc; NodeId(0); nodes]?,
            places: vec![in alloc; 0; nodes]?,
            count: 0,
        })
    }

    // Forgets what changed, at the cost of that alone.
    pub(crate) fn begin(&mut self)
        ensures flags { self.new.flags ≡ self.old.flags }
        ensures begun { self.new.begun ≡ self.old.flags }
        ensures named { self.new.named ≡ [] }
    {
        forget(&self.named[..self.count], &self.flags, &mut self.begun);
        self.count = 0;
    }

    // Whether a node is flagged.
    pub(crate) fn is_set(&self, n: NodeId) -> bool
        requires { n.0 < length self.now.flags }
        ensures { result ≡ flag_in self.now.flags n.0 }
    {
        self.flags[n.0 as usize]
    }

    // Flags a node, or takes its flag away.
    pub(crate) fn set(&mut self, n: NodeId, flag: bool)
        requires { n.0 < length self.old.flags }
        ensures flags { self.new.flags ≡ slice_set self.old.flags n.0 flag }
        ensures begun { self.new.begun ≡ self.old.begun }
    {
        let k = n.0 as usize;
        if self.flags[k] == flag {
            return;
        }
        self.flags[k] = flag;
        if self.begun[k] == flag {
            self.count -= 1;
            let last = self.named[self.count];
            let place = self.places[k];
            self.named[place] = last;
            self.places[last.0 as usize] = place;
            return;
        }
        self.named[self.count] = n;
        self.places[k] = self.count;
        self.count += 1;
    }

    // Says that the list names what differs.
    pub(crate) fn names_differences(&self)
        ensures { AreDifferences self.now.begun self.now.flags (length self.now.named) (node_at self.now.named) }
    {
        let _named = self.named();
    }

    // The nodes whose flags aren't what they were at the last beginning.
    pub(crate) fn named(&self) -> &[NodeId]
        ensures named { result.now ≡ self.now.named }
        ensures differences { AreDifferences self.now.begun self.now.flags (length self.now.named) (node_at self.now.named) }
    {
        &self.named[..self.count]
    }
}
