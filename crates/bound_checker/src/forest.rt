//! The conditions on the chains of parents.
ghost use Rattle.std.specs.Prelude.{◌≡◌, ◌<◌, ◌==◌, ◌&&◌, ◌^◌, ℕ, suc, true, false, length, slice_index_or, vec_len, IfOk, if◌then◌else◌};
ghost use Rattle.outage_rules.specs.Sum.{some_below};
ghost use Rattle.outage_rules.specs.Certificate.{has_parent};
ghost use Rattle.outage_rules.specs.Reference.{test_parent, test_stray};
ghost use Rattle.grid_model.specs.Network.{network_of, network_in};
ghost use Rattle.grid_model.specs.Sound.{IsSoundParts};
ghost use Rattle.bound_checker.specs.Chains.{AllHang};
ghost use Rattle.bound_checker.specs.Claimed.{table_in};
ghost use Rattle.bound_checker.specs.Conditions.{is_bad_source, has_bad_parent, is_stray};
ghost use Rattle.bound_checker.specs.Verdict.{first_below, first_failed, forest_trials};

use crate::claims::Claim;
use crate::rules::{CheckRule, Verdict};
use grid_model::{Device, DeviceId, Grid, NodeId};
use std::alloc::{AllocError, Global};

// The number of the end of a device that is not this node.
pub(crate) fn other_end(device: &Device, n: u32) -> u32
    ensures { result ≡ (if device.now.to.0 == n then device.now.from.0 else device.now.to.0) }
{
    if device.to.0 == n {
        device.from.0
    } else {
        device.to.0
    }
}

// Whether a node is listed and is no source.
pub(crate) fn has_parent(grid: &Grid, claims: &[Claim], n: u32) -> bool
    requires node { n < length grid.now.nodes }
    requires claims { length claims.now ≡ length grid.now.nodes }
    ensures { result ≡ has_parent (network_of grid.now) (table_in claims.now) n }
{
    claims[n as usize].is_listed && !grid.is_source(NodeId(n))
}

// Whether a source isn't listed without a parent and at depth 0.
fn is_bad_source(grid: &Grid, claims: &[Claim], n: u32) -> bool
    requires node { n < length grid.now.nodes }
    requires claims { length claims.now ≡ length grid.now.nodes }
    ensures { result ≡ is_bad_source (network_of grid.now) (table_in claims.now) n }
{
    let claim = claims[n as usize];
    let stands = claim.is_listed && claim.parent == grid.devices() && claim.depth == 0;
    grid.is_source(NodeId(n)) && !stands
}

// The first source that isn't listed without a parent and at depth 0.
fn first_bad_source(grid: &Grid, claims: &[Claim]) -> Option<u32>
    requires claims { length claims.now ≡ length grid.now.nodes }
    ensures { result ≡ first_below (length grid.now.nodes) (is_bad_source (network_of grid.now) (table_in claims.now)) }
{
    for n in 0..grid.nodes() {
        if is_bad_source(grid, claims, n) {
            return Some(n);
        }
    }
    None
}

// Whether a depth is one more than another.
fn is_one_deeper(depth: u32, above: u32) -> bool
    ensures { result ≡ (depth == suc above) }
{
    u64::from(depth) == u64::from(above) + 1
}

// Whether the parent device is closed, ends at the node, and leads to a listed node at a depth one
// less.
fn hangs(grid: &Grid, closed: &[bool], claims: &[Claim], n: u32) -> bool
    requires node { n < length grid.now.nodes }
    requires closed { length closed.now ≡ length grid.now.devices }
    requires claims { length claims.now ≡ length grid.now.nodes }
    ensures { result ≡ test_parent (network_in grid.now (λ d. slice_index_or closed.now d false)) (table_in claims.now) n }
{
    let claim = claims[n as usize];
    if claim.parent >= grid.devices() {
        return false;
    }
    let device = grid.device(DeviceId(claim.parent));
    let above = claims[other_end(&device, n) as usize];
    let ends = device.from.0 == n || device.to.0 == n;
    closed[claim.parent as usize]
        && ends
        && above.is_listed
        && is_one_deeper(claim.depth, above.depth)
}

// Whether a listed node that is no source has no such parent device.
fn has_bad_parent(grid: &Grid, closed: &[bool], claims: &[Claim], n: u32) -> bool
    requires node { n < length grid.now.nodes }
    requires closed { length closed.now ≡ length grid.now.devices }
    requires claims { length claims.now ≡ length grid.now.nodes }
    ensures { result ≡ has_bad_parent (network_in grid.now (λ d. slice_index_or closed.now d false)) (table_in claims.now) n }
{
    has_parent(grid, claims, n) && !hangs(grid, closed, claims, n)
}

// The first listed node that is no source and has no such parent device.
fn first_bad_parent(grid: &Grid, closed: &[bool], claims: &[Claim]) -> Option<u32>
    requires closed { length closed.now ≡ length grid.now.devices }
    requires claims { length claims.now ≡ length grid.now.nodes }
    ensures { result ≡ first_below (length grid.now.nodes) (has_bad_parent (network_in grid.now (λ d. slice_index_or closed.now d false)) (table_in claims.now)) }
{
    for n in 0..grid.nodes() {
        if has_bad_parent(grid, closed, claims, n) {
            return Some(n);
        }
    }
    None
}

// Sets the flags of the devices that are parents.
fn flag_parents(grid: &Grid, claims: &[Claim], flags: &mut [bool])
    requires claims { length claims.now ≡ length grid.now.nodes }
    requires flags { length flags.old ≡ length grid.now.devices }
    requires parents { AllHang (network_of grid.now) (table_in claims.now) }
    requires empty { (d : ℕ) → slice_index_or flags.old d false ≡ false }
    ensures { (d : ℕ) → slice_index_or flags.new d false ≡ some_below (length grid.now.nodes) (λ n. has_parent (network_of grid.now) (table_in claims.now) n && ((table_in claims.now).parent n == d)) }
{
    for n in 0..grid.nodes() {
        if has_parent(grid, claims, n) {
            flags[claims[n as usize].parent as usize] = true;
        }
    }
}

// Whether a closed device is no parent device, and has a listed end.
fn is_stray(grid: &Grid, closed: &[bool], claims: &[Claim], parents: &[bool], d: u32) -> bool
    requires sound { IsSoundParts grid.now }
    requires device { d < length grid.now.devices }
    requires closed { length closed.now ≡ length grid.now.devices }
    requires claims { length claims.now ≡ length grid.now.nodes }
    requires parents { length parents.now ≡ length grid.now.devices }
    requires flags { slice_index_or parents.now d false ≡ some_below (length grid.now.nodes) (λ n. has_parent (network_of grid.now) (table_in claims.now) n && ((table_in claims.now).parent n == d)) }
    ensures { result ≡ is_stray (network_in grid.now (λ d. slice_index_or closed.now d false)) (table_in claims.now) d }
{
    let device = grid.device(DeviceId(d));
    let from = claims[device.from.0 as usize];
    let to = claims[device.to.0 as usize];
    let is_apart = !from.is_listed && !to.is_listed;
    let is_held = parents[d as usize] || is_apart;
    closed[d as usize] && !is_held
}

// The first closed device that is no parent device and has a listed end.
fn first_stray(grid: &Grid, closed: &[bool], claims: &[Claim], parents: &[bool]) -> Option<u32>
    requires closed { length closed.now ≡ length grid.now.devices }
    requires claims { length claims.now ≡ length grid.now.nodes }
    requires parents { length parents.now ≡ length grid.now.devices }
    requires flags { (d : ℕ) → slice_index_or parents.now d false ≡ some_below (length grid.now.nodes) (λ n. has_parent (network_of grid.now) (table_in claims.now) n && ((table_in claims.now).parent n == d)) }
    ensures { result ≡ first_below (length grid.now.devices) (is_stray (network_in grid.now (λ d. slice_index_or closed.now d false)) (table_in claims.now)) }
{
    for d in 0..grid.devices() {
        if is_stray(grid, closed, claims, parents, d) {
            return Some(d);
        }
    }
    None
}

// Whether each device is a parent.
fn parent_flags(alloc: Global, grid: &Grid, claims: &[Claim]) -> Result<Vec<bool>, AllocError>
    requires claims { length claims.now ≡ length grid.now.nodes }
    requires parents { AllHang (network_of grid.now) (table_in claims.now) }
    ensures count { IfOk result (λ flags. vec_len flags ≡ length grid.now.devices) }
    ensures flags { IfOk result (λ flags. (d : ℕ) → slice_index_or flags.items d false ≡ some_below (length grid.now.nodes) (λ n. has_parent (network_of grid.now) (table_in claims.now) n && ((table_in claims.now).parent n == d))) }
{
    let mut flags = vec![in alloc; false; grid.devices() as usize]?;
    flag_parents(grid, claims, &mut flags);
    Ok(flags)
}

// The first of these conditions that fails.
pub(crate) fn verdict(
    alloc: Global,
    grid: &Grid,
    closed: &[bool],
    claims: &[Claim],
) -> Result<Verdict, AllocError>
    requires closed { length closed.now ≡ length grid.now.devices }
    requires claims { length claims.now ≡ length grid.now.nodes }
    ensures { IfOk result (λ v. v ≡ first_failed (forest_trials (network_in grid.now (λ d. slice_index_or closed.now d false)) (table_in claims.now))) }
{
    if let Some(n) = first_bad_source(grid, claims) {
        return Ok(Verdict::at_node(CheckRule::BadSource, n));
    }
    if let Some(n) = first_bad_parent(grid, closed, claims) {
        return Ok(Verdict::at_node(CheckRule::BadParent, n));
    }
    let parents = parent_flags(alloc, grid, claims)?;
    if let Some(d) = first_stray(grid, closed, claims, &parents) {
        return Ok(Verdict::at_device(CheckRule::StrayDevice, d));
    }
    Ok(Verdict::Valid)
}
