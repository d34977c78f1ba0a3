//! Flags that are judged anew along the walks of a few places, and below the nodes that flip.
ghost use Rattle.std.specs.Prelude.{◌≡◌, ◌≤◌, ◌<◌, ◌+◌, ◌↔◌, ℕ, Some, IsTrue, length, All};
ghost use Rattle.outage_rules.specs.Certificate.{other_end};
ghost use Rattle.grid_model.specs.declared.parts.DeviceId.{DeviceId};
ghost use Rattle.grid_model.specs.Places.{devices_at};
ghost use Rattle.grid_model.specs.Network.{network_of};
ghost use Rattle.radial_forest.specs.Traversed.{parent_in, node_at};
ghost use Rattle.radial_forest.specs.Spreading.{switched};
ghost use Rattle.subtree_costs.specs.Trees.{depth_in};
ghost use Rattle.subtree_costs.specs.Costed.{IsCosted};
ghost use Rattle.diagnosis.specs.Judgement.{Agree, flag_in};
ghost use Rattle.subtree_costs.specs.Walks.{node_up, IsOnWalks, walks_work};
ghost use Rattle.diagnosis.specs.Settling.{DisagreeOnWalks, NoneOpenOpened, flips_work};
ghost use Rattle.diagnosis.specs.Judging.{Aim, judging, IsJudgedOn, IsUnderWay, IsRight, IsWalkUp, HasAim, AlwaysLeads};

use crate::flags::{Flags, flag_node, other_end};
use grid_model::{DeviceId, Grid, NodeId};
use std::sync::ledger::Ledger;
use subtree_costs::{CostForest, Steps};

// Whether a node hangs from a device.
fn hangs_by(costs: &CostForest, n: NodeId, d: DeviceId) -> bool
    requires { n.0 < length costs.now.forest.roots }
    ensures { IsTrue result ↔ (parent_in costs.now.forest.parents n.0 ≡ Some d) }
{
    costs.forest().parent(n) == Some(d)
}

// Judges a node anew, and lists it behind the nodes that flipped where it flips. Answers how many
// they are then.
fn judge_node<L: Ledger>(
    grid: &Grid,
    costs: &CostForest,
    n: NodeId,
    flags: &mut Flags,
    turned: &mut [NodeId],
    count: usize,
    steps: &mut Steps<L>,
) -> usize
    requires costed { IsCosted grid.now costs.now }
    requires node { n.0 < length grid.now.nodes }
    requires opened { length flags.old.opened.flags ≡ length grid.now.devices }
    requires dark { length flags.old.dark.flags ≡ length grid.now.nodes }
    requires room { count < length turned.old }
    ensures judged { IsJudgedOn grid.now costs.now n.0 (judging flags.old.opened flags.old.dark turned.old count) (judging flags.new.opened flags.new.dark turned.new result) }
    ensures opened_begun { flags.new.opened.begun ≡ flags.old.opened.begun }
    ensures dark_begun { flags.new.dark.begun ≡ flags.old.dark.begun }
    ensures steps { steps.new ≤ steps.old + 1 }
{
    let was_dark = flags.dark.is_set(n);
    flag_node(grid, costs, n, flags, steps);
    if flags.dark.is_set(n) == was_dark {
        return count;
    }
    turned[count] = n;
    count + 1
}

// Lists the nodes on the walk from a node to its root, and answers how many they are.
fn list_walk(grid: &Grid, costs: &CostForest, n: NodeId, walk: &mut [NodeId]) -> usize
    requires costed { IsCosted grid.now costs.now }
    requires node { n.0 < length grid.now.nodes }
    requires room { length walk.old ≡ length grid.now.nodes }
    ensures count { result ≡ depth_in (switched grid.now costs.now.forest.closed) costs.now.forest n.0 + 1 }
    ensures within { result ≤ length walk.new }
    ensures nodes { (k : ℕ) → k < result → node_at walk.new k ≡ node_up (switched grid.now costs.now.forest.closed) costs.now.forest.parents k n.0 }
{
    walk[0] = n;
    let mut up = 0;
    while let Some(d) = costs.forest().parent(walk[up]) {
        let above = other_end(grid, d, walk[up]);
        up += 1;
        walk[up] = above;
    }
    up + 1
}

// Judges the nodes of a walk, from its root down.
fn judge_walk<L: Ledger>(
    grid: &Grid,
    costs: &CostForest,
    walk: &[NodeId],
    flags: &mut Flags,
    turned: &mut [NodeId],
    count: usize,
    steps: &mut Steps<L>,
) -> usize
    requires costed { IsCosted grid.now costs.now }
    requires under_way { HasAim grid.now costs.now (judging flags.old.opened flags.old.dark turned.old count) }
    requires room { length turned.old ≡ length grid.now.nodes + 1 }
    requires walk { IsWalkUp grid.now costs.now walk.now }
    ensures leads { AlwaysLeads grid.now costs.now (judging flags.old.opened flags.old.dark turned.old count) (judging flags.new.opened flags.new.dark turned.new result) }
    ensures right { (w : Aim) → IsUnderWay grid.now costs.now w (judging flags.old.opened flags.old.dark turned.old count)
        → (k : ℕ) → k < length walk.now → IsRight costs.now w (judging flags.new.opened flags.new.dark turned.new result) (node_at walk.now k) }
    ensures opened_begun { flags.new.opened.begun ≡ flags.old.opened.begun }
    ensures dark_begun { flags.new.dark.begun ≡ flags.old.dark.begun }
    ensures steps { steps.new ≤ steps.old + length walk.now }
{
    let mut listed = count;
    for k in (0..walk.len()).rev() {
        listed = judge_node(grid, costs, walk[k], flags, turned, listed, steps);
    }
    listed
}

// Judges the nodes on the walks from places to their roots.
fn judge_walks<L: Ledger>(
    grid: &Grid,
    costs: &CostForest,
    places: &[NodeId],
    flags: &mut Flags,
    walk: &mut [NodeId],
    turned: &mut [NodeId],
    steps: &mut Steps<L>,
) -> usize
    requires costed { IsCosted grid.now costs.now }
    requires places { All (λ n. n.0 < length grid.now.nodes) places.now }
    requires under_way { HasAim grid.now costs.now (judging flags.old.opened flags.old.dark turned.old 0) }
    requires room { length turned.old ≡ length grid.now.nodes + 1 }
    requires walk { length walk.old ≡ length grid.now.nodes }
    ensures leads { AlwaysLeads grid.now costs.now (judging flags.old.opened flags.old.dark turned.old 0) (judging flags.new.opened flags.new.dark turned.new result) }
    ensures right { (w : Aim) → IsUnderWay grid.now costs.now w (judging flags.old.opened flags.old.dark turned.old 0)
        → (n : ℕ) → IsOnWalks (switched grid.now costs.now.forest.closed) costs.now.forest places.now n → IsRight costs.now w (judging flags.new.opened flags.new.dark turned.new result) n }
    ensures opened_begun { flags.new.opened.begun ≡ flags.old.opened.begun }
    ensures dark_begun { flags.new.dark.begun ≡ flags.old.dark.begun }
    ensures steps { steps.new ≤ steps.old + walks_work (switched grid.now costs.now.forest.closed) costs.now.forest places.now }
{
    let mut listed = 0;
    for p in places {
        let long = list_walk(grid, costs, *p, walk);
        listed = judge_walk(grid, costs, &walk[..long], flags, turned, listed, steps);
    }
    listed
}

// Judges what hangs from a node.
fn judge_below<L: Ledger>(
    grid: &Grid,
    costs: &CostForest,
    n: NodeId,
    flags: &mut Flags,
    turned: &mut [NodeId],
    count: usize,
    steps: &mut Steps<L>,
) -> usize
    requires costed { IsCosted grid.now costs.now }
    requires node { n.0 < length grid.now.nodes }
    requires under_way { HasAim grid.now costs.now (judging flags.old.opened flags.old.dark turned.old count) }
    requires right { (w : Aim) → IsUnderWay grid.now costs.now w (judging flags.old.opened flags.old.dark turned.old count) → flag_in flags.old.dark.flags n.0 ≡ w.goal n.0 }
    requires room { length turned.old ≡ length grid.now.nodes + 1 }
    ensures leads { AlwaysLeads grid.now costs.now (judging flags.old.opened flags.old.dark turned.old count) (judging flags.new.opened flags.new.dark turned.new result) }
    ensures right { (w : Aim) → IsUnderWay grid.now costs.now w (judging flags.old.opened flags.old.dark turned.old count)
        → (m : ℕ) (x : DeviceId) → m < length grid.now.nodes → parent_in costs.now.forest.parents m ≡ Some x → other_end (network_of grid.now) x.0 m ≡ n.0
        → IsRight costs.now w (judging flags.new.opened flags.new.dark turned.new result) m }
    ensures opened_begun { flags.new.opened.begun ≡ flags.old.opened.begun }
    ensures dark_begun { flags.new.dark.begun ≡ flags.old.dark.begun }
    ensures steps { steps.new ≤ steps.old + length (devices_at grid.now n.0) }
{
    let mut listed = count;
    for d in grid.incident(n) {
        let m = other_end(grid, *d, n);
        if hangs_by(costs, m, *d) {
            listed = judge_node(grid, costs, m, flags, turned, listed, steps);
        }
    }
    listed
}

// Judges what hangs from the nodes that flip, from the first that is listed on. Answers how many
// they are.
fn judge_all_below<L: Ledger>(
    grid: &Grid,
    costs: &CostForest,
    flags: &mut Flags,
    turned: &mut [NodeId],
    count: usize,
    steps: &mut Steps<L>,
) -> usize
    requires costed { IsCosted grid.now costs.now }
    requires under_way { HasAim grid.now costs.now (judging flags.old.opened flags.old.dark turned.old count) }
    requires room { length turned.old ≡ length grid.now.nodes + 1 }
    ensures leads { AlwaysLeads grid.now costs.now (judging flags.old.opened flags.old.dark turned.old count) (judging flags.new.opened flags.new.dark turned.new result) }
    ensures right { (w : Aim) → IsUnderWay grid.now costs.now w (judging flags.old.opened flags.old.dark turned.old count)
        → (j : ℕ) → j < result → (m : ℕ) (x : DeviceId) → m < length grid.now.nodes → parent_in costs.now.forest.parents m ≡ Some x → other_end (network_of grid.now) x.0 m ≡ node_at turned.new j
        → IsRight costs.now w (judging flags.new.opened flags.new.dark turned.new result) m }
    ensures opened_begun { flags.new.opened.begun ≡ flags.old.opened.begun }
    ensures dark_begun { flags.new.dark.begun ≡ flags.old.dark.begun }
    ensures steps { (w : Aim) → IsUnderWay grid.now costs.now w (judging flags.old.opened flags.old.dark turned.old count)
        → steps.new ≤ steps.old + flips_work grid.now w.dark flags.new.dark.flags }
{
    let mut listed = count;
    let mut place = 0;
    while place < listed {
        listed = judge_below(grid, costs, turned[place], flags, turned, listed, steps);
        place += 1;
    }
    listed
}

// Settles flags that disagree with the rows on the walks from the places alone.
pub(crate) fn settle<L: Ledger>(
    grid: &Grid,
    costs: &CostForest,
    places: &[NodeId],
    flags: &mut Flags,
    walk: &mut [NodeId],
    turned: &mut [NodeId],
    steps: &mut Steps<L>,
)
    requires costed { IsCosted grid.now costs.now }
    requires opened { length flags.old.opened.flags ≡ length grid.now.devices }
    requires dark { length flags.old.dark.flags ≡ length grid.now.nodes }
    requires walk { length walk.old ≡ length grid.now.nodes }
    requires room { length turned.old ≡ length grid.now.nodes + 1 }
    requires places { All (λ n. n.0 < length grid.now.nodes) places.now }
    requires elsewhere { DisagreeOnWalks grid.now costs.now (flag_in flags.old.opened.flags) (flag_in flags.old.dark.flags) places.now }
    requires open_ones { NoneOpenOpened grid.now costs.now (flag_in flags.old.opened.flags) }
    ensures agree { Agree grid.now costs.now (flag_in flags.new.opened.flags) (flag_in flags.new.dark.flags) }
    ensures opened { length flags.new.opened.flags ≡ length grid.now.devices }
    ensures dark { length flags.new.dark.flags ≡ length grid.now.nodes }
    ensures opened_begun { flags.new.opened.begun ≡ flags.old.opened.begun }
    ensures dark_begun { flags.new.dark.begun ≡ flags.old.dark.begun }
    ensures steps { steps.new ≤ steps.old + walks_work (switched grid.now costs.now.forest.closed) costs.now.forest places.now + flips_work grid.now flags.old.dark.flags flags.new.dark.flags }
{
    let listed = judge_walks(grid, costs, places, flags, walk, turned, steps);
    judge_all_below(grid, costs, flags, turned, listed, steps);
}
