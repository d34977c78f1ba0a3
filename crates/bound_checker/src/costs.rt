//! The conditions on the sums.
ghost use Rattle.std.specs.Prelude.{◌≡◌, ◌≤◌, ◌<◌, ◌+◌, ◌*◌, ◌^◌, ◌&&◌, not, [], length, None, IfOk, slice_index, slice_index_or, if◌then◌else◌};
ghost use Rattle.outage_rules.specs.Sum.{total};
ghost use Rattle.outage_rules.specs.Certificate.{lit, cost_by_table, bound_of};
ghost use Rattle.grid_model.specs.Network.{network_of};
ghost use Rattle.grid_model.specs.Places.{device_at, is_source};
ghost use Rattle.grid_model.specs.Sound.{IsSoundParts};
ghost use Rattle.bound_checker.specs.Chains.{AllHang, AreRight};
ghost use Rattle.grid_model.specs.Problem.{problem_of};
ghost use Rattle.bound_checker.specs.Claimed.{table_in, cut_in};
ghost use Rattle.bound_checker.specs.Verdict.{first_failed, cost_trials};

use crate::chains::is_lit;
use crate::claims::Claim;
use crate::rules::{CheckRule, Verdict};
use grid_model::{DeviceId, Grid, Mark, NodeId};
use std::alloc::{AllocError, Global};

// The weights of the cut.
fn cut_weight(grid: &Grid, cuts: &[bool]) -> u128
    requires cuts { length cuts.now ≡ length grid.now.devices }
    ensures value { result ≡ total (length grid.now.devices) (λ d. if cut_in cuts.now d then (device_at grid.now d).weight else 0) }
    ensures small { result ≤ length grid.now.devices * 2 ^ 64 }
{
    let mut sum = 0u128;
    for d in 0..grid.devices() {
        if cuts[d as usize] {
            sum += u128::from(grid.device(DeviceId(d)).weight);
        }
    }
    sum
}

// The weights of the reports that the cut contradicts, by the table.
fn contradicted(
    grid: &Grid,
    dark: &[u64],
    live: &[u64],
    claims: &[Claim],
    cuts: &[bool],
    known: &mut [Option<bool>],
) -> u128
    requires dark { length dark.now ≡ length grid.now.nodes }
    requires live { length live.now ≡ length grid.now.nodes }
    requires claims { length claims.now ≡ length grid.now.nodes }
    requires cuts { length cuts.now ≡ length grid.now.devices }
    requires known { length known.old ≡ length grid.now.nodes }
    requires parents { AllHang (network_of grid.now) (table_in claims.now) }
    requires right { AreRight (network_of grid.now) (table_in claims.now) (cut_in cuts.now) known.old }
    ensures value { result ≡ total (length grid.now.nodes) (λ n. if lit (network_of grid.now) (table_in claims.now) (cut_in cuts.now) n then slice_index dark.now n else slice_index live.now n) }
    ensures small { result ≤ length grid.now.nodes * 2 ^ 64 }
{
    let mut sum = 0u128;
    for n in 0..grid.nodes() {
        let is_live = is_lit(grid, claims, cuts, known, n);
        let weight = if is_live {
            dark[n as usize]
        } else {
            live[n as usize]
        };
        sum += u128::from(weight);
    }
    sum
}

// What the cut costs, by the table.
fn cut_cost(
    alloc: Global,
    grid: &Grid,
    dark: &[u64],
    live: &[u64],
    claims: &[Claim],
    cuts: &[bool],
) -> Result<u128, AllocError>
    requires sound { IsSoundParts grid.now }
    requires dark { length dark.now ≡ length grid.now.nodes }
    requires live { length live.now ≡ length grid.now.nodes }
    requires claims { length claims.now ≡ length grid.now.nodes }
    requires cuts { length cuts.now ≡ length grid.now.devices }
    requires parents { AllHang (network_of grid.now) (table_in claims.now) }
    ensures { IfOk result (λ c. c ≡ cost_by_table (problem_of grid.now [] [] dark.now live.now) (table_in claims.now) (cut_in cuts.now)) }
{
    let mut known = vec![in alloc; None; grid.nodes() as usize]?;
    Ok(cut_weight(grid, cuts) + contradicted(grid, dark, live, claims, cuts, &mut known))
}

// The live costs of the sources.
fn source_costs(grid: &Grid, claims: &[Claim]) -> u128
    requires claims { length claims.now ≡ length grid.now.nodes }
    ensures value { result ≡ total (length grid.now.nodes) (λ n. if is_source grid.now n then (table_in claims.now).live_cost n else 0) }
    ensures small { result ≤ length grid.now.nodes * 2 ^ 64 }
{
    let mut sum = 0u128;
    for n in 0..grid.nodes() {
        if grid.is_source(NodeId(n)) {
            sum += u128::from(claims[n as usize].live);
        }
    }
    sum
}

// The live weights of the nodes that aren't listed.
fn unlisted_weights(grid: &Grid, live: &[u64], claims: &[Claim]) -> u128
    requires live { length live.now ≡ length grid.now.nodes }
    requires claims { length claims.now ≡ length grid.now.nodes }
    ensures value { result ≡ total (length grid.now.nodes) (λ n. if (table_in claims.now).is_listed n then 0 else slice_index live.now n) }
    ensures small { result ≤ length grid.now.nodes * 2 ^ 64 }
{
    let mut sum = 0u128;
    for n in 0..grid.nodes() {
        if !claims[n as usize].is_listed {
            sum += u128::from(live[n as usize]);
        }
    }
    sum
}

// What a device adds: its weight where it is marked open and has no listed end.
fn apart_weight(grid: &Grid, marks: &[Mark], claims: &[Claim], d: u32) -> u128
    requires sound { IsSoundParts grid.now }
    requires device { d < length grid.now.devices }
    requires marks { length marks.now ≡ length grid.now.devices }
    requires claims { length claims.now ≡ length grid.now.nodes }
    ensures value { let p = problem_of grid.now [] marks.now [] [] in let t = table_in claims.now in result ≡ (if p.marked_open d && (not (t.is_listed (p.from d)) && not (t.is_listed (p.to d))) then p.weight d else 0) }
    ensures small { result < 2 ^ 64 }
{
    let device = grid.device(DeviceId(d));
    let from = claims[device.from.0 as usize];
    let to = claims[device.to.0 as usize];
    let is_apart = !from.is_listed && !to.is_listed;
    let mark = marks[d as usize];
    match mark {
        Mark::Opened if is_apart => u128::from(device.weight),
        _ => 0,
    }
}

// The weights of the devices that are marked open and have no listed end.
fn apart_weights(grid: &Grid, marks: &[Mark], claims: &[Claim]) -> u128
    requires marks { length marks.now ≡ length grid.now.devices }
    requires claims { length claims.now ≡ length grid.now.nodes }
    ensures value { let p = problem_of grid.now [] marks.now [] [] in let t = table_in claims.now in result ≡ total (length grid.now.devices) (λ d. if p.marked_open d && (not (t.is_listed (p.from d)) && not (t.is_listed (p.to d))) then p.weight d else 0) }
    ensures small { result ≤ length grid.now.devices * 2 ^ 64 }
{
    let mut sum = 0u128;
    for d in 0..grid.devices() {
        sum += apart_weight(grid, marks, claims, d);
    }
    sum
}

// What the rows of the sources and the parts that aren't listed come to.
fn bound(grid: &Grid, marks: &[Mark], live: &[u64], claims: &[Claim]) -> u128
    requires sound { IsSoundParts grid.now }
    requires marks { length marks.now ≡ length grid.now.devices }
    requires live { length live.now ≡ length grid.now.nodes }
    requires claims { length claims.now ≡ length grid.now.nodes }
    ensures { result ≡ bound_of (problem_of grid.now [] marks.now [] live.now) (table_in claims.now) }
{
    source_costs(grid, claims)
        + unlisted_weights(grid, live, claims)
        + apart_weights(grid, marks, claims)
}

// The first of these conditions that fails.
pub(crate) fn verdict(
    alloc: Global,
    grid: &Grid,
    marks: &[Mark],
    dark: &[u64],
    live: &[u64],
    claims: &[Claim],
    cuts: &[bool],
    cost: u64,
) -> Result<Verdict, AllocError>
    requires sound { IsSoundParts grid.now }
    requires marks { length marks.now ≡ length grid.now.devices }
    requires dark { length dark.now ≡ length grid.now.nodes }
    requires live { length live.now ≡ length grid.now.nodes }
    requires claims { length claims.now ≡ length grid.now.nodes }
    requires cuts { length cuts.now ≡ length grid.now.devices }
    requires parents { AllHang (network_of grid.now) (table_in claims.now) }
    ensures { IfOk result (λ v. v ≡ first_failed (cost_trials (problem_of grid.now [] marks.now dark.now live.now) (table_in claims.now) (cut_in cuts.now) cost)) }
{
    let cost = u128::from(cost);
    if cut_cost(alloc, grid, dark, live, claims, cuts)? != cost {
        return Ok(Verdict::on_the_whole(CheckRule::CutCost));
    }
    if bound(grid, marks, live, claims) != cost {
        return Ok(Verdict::on_the_whole(CheckRule::Total));
    }
    Ok(Verdict::Valid)
}
