//! Which listed nodes a device of the cut is above.
ghost use Rattle.std.specs.Prelude.{◌≡◌, ◌<◌, true, false, length, Option, Some, None};
ghost use Rattle.outage_rules.specs.Certificate.{lit, has_parent};
ghost use Rattle.grid_model.specs.Network.{network_of};
ghost use Rattle.bound_checker.specs.Chains.{AllHang, AreRight, IsNextAbove, is_cut_off};
ghost use Rattle.bound_checker.specs.Claimed.{table_in, cut_in};

use crate::claims::Claim;
use crate::forest::{has_parent, other_end};
use grid_model::{DeviceId, Grid};

// What is known at a node, or else the node above it, which is cut off exactly where this one is.
#[derive(Clone, Copy)]
pub(crate) enum Above {
    Known(bool),
    Node(u32),
}

// Goes up by one node.
fn go_up(grid: &Grid, claims: &[Claim], cuts: &[bool], known: &[Option<bool>], n: u32) -> Above
    requires node { n < length grid.now.nodes }
    requires claims { length claims.now ≡ length grid.now.nodes }
    requires cuts { length cuts.now ≡ length grid.now.devices }
    requires known { length known.now ≡ length grid.now.nodes }
    requires parents { AllHang (network_of grid.now) (table_in claims.now) }
    requires right { AreRight (network_of grid.now) (table_in claims.now) (cut_in cuts.now) known.now }
    ensures { IsNextAbove (network_of grid.now) (table_in claims.now) (cut_in cuts.now) n result }
{
    if let Some(answer) = known[n as usize] {
        return Above::Known(answer);
    }
    if !has_parent(grid, claims, n) {
        return Above::Known(false);
    }
    let parent = claims[n as usize].parent;
    if cuts[parent as usize] {
        return Above::Known(true);
    }
    let device = grid.device(DeviceId(parent));
    Above::Node(other_end(&device, n))
}

// Whether a device of the cut is above a node, by the first node up the chain where it is known.
fn find(grid: &Grid, claims: &[Claim], cuts: &[bool], known: &[Option<bool>], n: u32) -> bool
    requires node { n < length grid.now.nodes }
    requires claims { length claims.now ≡ length grid.now.nodes }
    requires cuts { length cuts.now ≡ length grid.now.devices }
    requires known { length known.now ≡ length grid.now.nodes }
    requires parents { AllHang (network_of grid.now) (table_in claims.now) }
    requires right { AreRight (network_of grid.now) (table_in claims.now) (cut_in cuts.now) known.now }
    ensures { result ≡ is_cut_off (network_of grid.now) (table_in claims.now) (cut_in cuts.now) n }
{
    let mut at = n;
    'up: loop {
        match go_up(grid, claims, cuts, known, at) {
            Above::Known(answer) => return answer,
            Above::Node(next) => at = next,
        }
    }
}

// Notes the same at each node on the way up to there.
fn note(
    grid: &Grid,
    claims: &[Claim],
    cuts: &[bool],
    known: &mut [Option<bool>],
    n: u32,
    answer: bool,
)
    requires node { n < length grid.now.nodes }
    requires claims { length claims.now ≡ length grid.now.nodes }
    requires cuts { length cuts.now ≡ length grid.now.devices }
    requires known { length known.old ≡ length grid.now.nodes }
    requires parents { AllHang (network_of grid.now) (table_in claims.now) }
    requires right { AreRight (network_of grid.now) (table_in claims.now) (cut_in cuts.now) known.old }
    requires answer { answer ≡ is_cut_off (network_of grid.now) (table_in claims.now) (cut_in cuts.now) n }
    ensures { AreRight (network_of grid.now) (table_in claims.now) (cut_in cuts.now) known.new }
{
    let mut at = n;
    'up: loop {
        let next = go_up(grid, claims, cuts, known, at);
        known[at as usize] = Some(answer);
        match next {
            Above::Known(_) => return,
            Above::Node(up) => at = up,
        }
    }
}

// Whether a node is live by the table: listed, and no device of the cut is above it.
pub(crate) fn is_lit(
    grid: &Grid,
    claims: &[Claim],
    cuts: &[bool],
    known: &mut [Option<bool>],
    n: u32,
) -> bool
    requires node { n < length grid.now.nodes }
    requires claims { length claims.now ≡ length grid.now.nodes }
    requires cuts { length cuts.now ≡ length grid.now.devices }
    requires known { length known.old ≡ length grid.now.nodes }
    requires parents { AllHang (network_of grid.now) (table_in claims.now) }
    requires right { AreRight (network_of grid.now) (table_in claims.now) (cut_in cuts.now) known.old }
    ensures value { result ≡ lit (network_of grid.now) (table_in claims.now) (cut_in cuts.now) n }
    ensures right { AreRight (network_of grid.now) (table_in claims.now) (cut_in cuts.now) known.new }
{
    if !claims[n as usize].is_listed {
        return false;
    }
    let answer = find(grid, claims, cuts, known, n);
    note(grid, claims, cuts, known, n, answer);
    !answer
}
