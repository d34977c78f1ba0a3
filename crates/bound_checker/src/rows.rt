//! The conditions on each row and those of its children.
ghost use Rattle.std.specs.Prelude.{◌≡◌, ◌<◌, ◌+◌, ◌^◌, ℕ, [], length, slice_index, IfOk, if◌then◌else◌};
ghost use Rattle.outage_rules.specs.Sum.{total};
ghost use Rattle.outage_rules.specs.Certificate.{is_child, choice, dark_share};
ghost use Rattle.grid_model.specs.Network.{network_of};
ghost use Rattle.bound_checker.specs.Chains.{AllHang};
ghost use Rattle.grid_model.specs.Problem.{problem_of};
ghost use Rattle.bound_checker.specs.Claimed.{table_in};
ghost use Rattle.bound_checker.specs.Conditions.{is_live_above, is_dark_above};
ghost use Rattle.bound_checker.specs.Verdict.{first_below, first_failed, row_trials};

use crate::children::{add_choices, add_dark_shares};
use crate::claims::Claim;
use crate::rules::{CheckRule, Verdict};
use grid_model::{Grid, Mark};
use std::alloc::{AllocError, Global};

// The first listed node whose live cost is above what its children allow.
fn first_live_above(
    grid: &Grid,
    marks: &[Mark],
    dark: &[u64],
    claims: &[Claim],
    sums: &[u128],
) -> Option<u32>
    requires dark { length dark.now ≡ length grid.now.nodes }
    requires claims { length claims.now ≡ length grid.now.nodes }
    requires count { length sums.now ≡ length grid.now.nodes }
    requires sums { (n : ℕ) → n < length grid.now.nodes → slice_index sums.now n ≡ total (length grid.now.nodes) (λ m. if is_child (network_of grid.now) (table_in claims.now) n m then choice (problem_of grid.now [] marks.now [] []) (table_in claims.now) m else 0) }
    requires small { (n : ℕ) → n < length grid.now.nodes → slice_index sums.now n < 2 ^ 127 }
    ensures { result ≡ first_below (length grid.now.nodes) (is_live_above (problem_of grid.now [] marks.now dark.now []) (table_in claims.now)) }
{
    for n in 0..grid.nodes() {
        let claim = claims[n as usize];
        let most = u128::from(dark[n as usize]) + sums[n as usize];
        if claim.is_listed && most < u128::from(claim.live) {
            return Some(n);
        }
    }
    None
}

// The first listed node whose dark cost is above what its children allow.
fn first_dark_above(
    grid: &Grid,
    marks: &[Mark],
    live: &[u64],
    claims: &[Claim],
    sums: &[u128],
) -> Option<u32>
    requires live { length live.now ≡ length grid.now.nodes }
    requires claims { length claims.now ≡ length grid.now.nodes }
    requires count { length sums.now ≡ length grid.now.nodes }
    requires sums { (n : ℕ) → n < length grid.now.nodes → slice_index sums.now n ≡ total (length grid.now.nodes) (λ m. if is_child (network_of grid.now) (table_in claims.now) n m then dark_share (problem_of grid.now [] marks.now [] []) (table_in claims.now) m else 0) }
    requires small { (n : ℕ) → n < length grid.now.nodes → slice_index sums.now n < 2 ^ 127 }
    ensures { result ≡ first_below (length grid.now.nodes) (is_dark_above (problem_of grid.now [] marks.now [] live.now) (table_in claims.now)) }
{
    for n in 0..grid.nodes() {
        let claim = claims[n as usize];
        let most = u128::from(live[n as usize]) + sums[n as usize];
        if claim.is_listed && most < u128::from(claim.dark) {
            return Some(n);
        }
    }
    None
}

// The same, with the sums made.
fn live_above(
    alloc: Global,
    grid: &Grid,
    marks: &[Mark],
    dark: &[u64],
    claims: &[Claim],
) -> Result<Option<u32>, AllocError>
    requires marks { length marks.now ≡ length grid.now.devices }
    requires dark { length dark.now ≡ length grid.now.nodes }
    requires claims { length claims.now ≡ length grid.now.nodes }
    requires parents { AllHang (network_of grid.now) (table_in claims.now) }
    ensures { IfOk result (λ n. n ≡ first_below (length grid.now.nodes) (is_live_above (problem_of grid.now [] marks.now dark.now []) (table_in claims.now))) }
{
    let mut sums = vec![in alloc; 0; grid.nodes() as usize]?;
    add_choices(grid, marks, claims, &mut sums);
    Ok(first_live_above(grid, marks, dark, claims, &sums))
}

// The same for the dark costs.
fn dark_above(
    alloc: Global,
    grid: &Grid,
    marks: &[Mark],
    live: &[u64],
    claims: &[Claim],
) -> Result<Option<u32>, AllocError>
    requires marks { length marks.now ≡ length grid.now.devices }
    requires live { length live.now ≡ length grid.now.nodes }
    requires claims { length claims.now ≡ length grid.now.nodes }
    requires parents { AllHang (network_of grid.now) (table_in claims.now) }
    ensures { IfOk result (λ n. n ≡ first_below (length grid.now.nodes) (is_dark_above (problem_of grid.now [] marks.now [] live.now) (table_in claims.now))) }
{
    let mut sums = vec![in alloc; 0; grid.nodes() as usize]?;
    add_dark_shares(grid, marks, claims, &mut sums);
    Ok(first_dark_above(grid, marks, live, claims, &sums))
}

// The first of these conditions that fails.
pub(crate) fn verdict(
    alloc: Global,
    grid: &Grid,
    marks: &[Mark],
    dark: &[u64],
    live: &[u64],
    claims: &[Claim],
) -> Result<Verdict, AllocError>
    requires marks { length marks.now ≡ length grid.now.devices }
    requires dark { length dark.now ≡ length grid.now.nodes }
    requires live { length live.now ≡ length grid.now.nodes }
    requires claims { length claims.now ≡ length grid.now.nodes }
    requires parents { AllHang (network_of grid.now) (table_in claims.now) }
    ensures { IfOk result (λ v. v ≡ first_failed (row_trials (problem_of grid.now [] marks.now dark.now live.now) (table_in claims.now))) }
{
    if let Some(n) = live_above(alloc, grid, marks, dark, claims)? {
        return Ok(Verdict::at_node(CheckRule::LiveRow, n));
    }
    if let Some(n) = dark_above(alloc, grid, marks, live, claims)? {
        return Ok(Verdict::at_node(CheckRule::DarkRow, n));
    }
    Ok(Verdict::Valid)
}
