//! Nodes in a list, each once.
ghost use Rattle.std.specs.Prelude.{◌≡◌, ℕ, ◌<◌, true, false, length, slice_index_or};
ghost use Rattle.radial_forest.specs.Traversed.{node_at};

use grid_model::NodeId;
use std::alloc::{AllocError, Global};
use std::marker::Model;

/// The nodes where a field changed, each once: a node is flagged where it stands in the list.
#[derive(Drop)]
pub(crate) struct Places {
    listed: Vec<bool>,
    nodes: Vec<NodeId>,
    count: usize,
}

impl Model for Places {
    ghost use Rattle.field_state.specs.Placed.{Placed};

    ghost Value = { Placed };

    ghost use Rattle.field_state.specs.PlacesInside.{placed_of, AreListed};

    ghost view = { placed_of };

    ghost invariant = { AreListed };
}

// Takes the flags of these nodes away.
fn unflag(nodes: &[NodeId], flags: &mut [bool])
    requires flagged { (i : ℕ) → i < length nodes.now → slice_index_or flags.old (node_at nodes.now i) false ≡ true }
    requires all { (n : ℕ) → slice_index_or flags.old n false ≡ true → (i : ℕ) × (i < length nodes.now) × (node_at nodes.now i ≡ n) }
    ensures length { length flags.new ≡ length flags.old }
    ensures none { (n : ℕ) → slice_index_or flags.new n false ≡ false }
{
    for n in nodes {
        flags[n.0 as usize] = false;
    }
}

impl Places {
    ghost use Rattle.std.specs.Prelude.{◌≡◌, ◌≢◌, ℕ, ◌<◌, ◌⊎◌, [], ◌∷◌, ◌++◌, length, All, IfOk};
    ghost use Rattle.radial_forest.specs.Traversed.{node_at};
    ghost use Rattle.subtree_costs.specs.Walks.{IsPlace};

    // No node, with room for so many. An error says that memory ran out.
    pub(crate) fn new(alloc: Global, nodes: usize) -> Result<Places, AllocError>
        ensures room { IfOk result (λ places. places.room ≡ nodes) }
        ensures nodes { IfOk result (λ places. places.nodes ≡ []) }
    {
        Ok(Places {
            listed: vec![in alloc; false; nodes]?,
            nodes: vec![in alloc; NodeId(0); nodes]?,
            count: 0,
        })
    }

    // Forgets the nodes, at the cost of those alone.
    pub(crate) fn clear(&mut self)
        ensures room { self.new.room ≡ self.old.room }
        ensures nodes { self.new.nodes ≡ [] }
    {
        unflag(&self.nodes[..self.count], &mut self.listed);
        self.count = 0;
    }

    // Lists a node, unless it is listed already.
    pub(crate) fn add(&mut self, n: NodeId)
        requires { n.0 < self.old.room }
        ensures room { self.new.room ≡ self.old.room }
        ensures nodes { (self.new.nodes ≡ self.old.nodes) ⊎ (self.new.nodes ≡ self.old.nodes ++ n ∷ []) }
        ensures listed { IsPlace self.new.nodes n.0 }
    {
        let k = n.0 as usize;
        if self.listed[k] {
            return;
        }
        self.listed[k] = true;
        self.nodes[self.count] = n;
        self.count += 1;
    }

    // The nodes.
    pub(crate) fn all(&self) -> &[NodeId]
        ensures nodes { result.now ≡ self.now.nodes }
        ensures within { All (λ n. n.0 < self.now.room) self.now.nodes }
        ensures once { (i j : ℕ) → i < j → j < length self.now.nodes → node_at self.now.nodes i ≢ node_at self.now.nodes j }
    {
        &self.nodes[..self.count]
    }
}
