//! The local check: whether bounds show that their cuts are a cheapest explanation of the reports.
#![tactic(auto)]

ghost use Rattle.std.specs.Prelude.{◌≡◌, List, length, IfOk};
ghost use Rattle.grid_model.specs.Sound.{IsSoundParts};
ghost use Rattle.outage_rules.specs.Certificate.{IsCertified};
ghost use Rattle.bound_table.specs.Sound.{IsTableOf};
ghost use Rattle.bound_checker.specs.declared.rules.Verdict.TheVariants.{Valid};
ghost use Rattle.grid_model.specs.Problem.{problem_of};
ghost use Rattle.grid_model.specs.declared.history.Event.{Event};
ghost use Rattle.history_rules.specs.Posed.{problem_after};
ghost use Rattle.field_state.specs.Fielded.{IsField, IsFieldAfter};
ghost use Rattle.bound_checker.specs.Claimed.{table_of, cut_of, table_in, cut_in};
ghost use Rattle.bound_checker.specs.Verdict.{verdict_of};

mod chains;
mod children;
mod claims;
mod costs;
mod cuts;
mod forest;
mod laws;
mod rows;
mod rules;

use bound_table::Bounds;
use claims::Claim;
use field_state::{Field, field_poses};
use grid_model::{Grid, Mark};
pub use laws::{tight_is_valid, valid_is_certified, valid_is_passed};
pub use rules::{CheckRule, Place, Verdict};
use std::alloc::{AllocError, Global};

/// Checks bounds against the network and the field after events: its states, its marks and what its
/// reports weigh. The verdict is the first rule whose condition fails, at its first place; an error
/// says that memory ran out.
pub fn check(
    alloc: Global,
    grid: &Grid,
    field: &Field,
    bounds: &Bounds,
) -> Result<Verdict, AllocError>
    requires field { IsField grid.now field.now }
    requires bounds { IsTableOf grid.now bounds.now }
    ensures verdict { IfOk result (λ v. (h : List Event) → IsFieldAfter grid.now h field.now
        → v ≡ verdict_of (problem_after grid.now h) (table_of (length grid.now.devices) bounds.now.rows) (cut_of bounds.now.cuts) bounds.now.cost) }
    ensures certified { IfOk result (λ v. (h : List Event) → IsFieldAfter grid.now h field.now → v ≡ Valid
        → IsCertified (problem_after grid.now h) (cut_of bounds.now.cuts) bounds.now.cost) }
{
    field_poses();
    let costs = field.costs();
    check_states(
        alloc,
        grid,
        costs.forest().closed(),
        costs.marks(),
        costs.dark_weights(),
        costs.live_weights(),
        bounds,
    )
}

/// The same with these devices closed and marked, one entry a device, and with these weights of the
/// dark and of the live reports, one entry a node.
pub fn check_states(
    alloc: Global,
    grid: &Grid,
    closed: &[bool],
    marks: &[Mark],
    dark: &[u64],
    live: &[u64],
    bounds: &Bounds,
) -> Result<Verdict, AllocError>
    requires closed { length closed.now ≡ length grid.now.devices }
    requires marks { length marks.now ≡ length grid.now.devices }
    requires dark { length dark.now ≡ length grid.now.nodes }
    requires live { length live.now ≡ length grid.now.nodes }
    requires bounds { IsTableOf grid.now bounds.now }
    ensures verdict { IfOk result (λ v. v ≡ verdict_of (problem_of grid.now closed.now marks.now dark.now live.now) (table_of (length grid.now.devices) bounds.now.rows) (cut_of bounds.now.cuts) bounds.now.cost) }
    ensures certified { IfOk result (λ v. v ≡ Valid → IsCertified (problem_of grid.now closed.now marks.now dark.now live.now) (cut_of bounds.now.cuts) bounds.now.cost) }
{
    let cuts = claims::cut_flags(alloc, grid.devices(), &bounds.cuts)?;
    let claims = claims::by_node(alloc, grid.nodes(), grid.devices(), &bounds.rows)?;
    verdict(
        alloc,
        grid,
        closed,
        marks,
        dark,
        live,
        &claims,
        &cuts,
        bounds.cost,
    )
}

// The same over claims by node and cuts by device.
fn verdict(
    alloc: Global,
    grid: &Grid,
    closed: &[bool],
    marks: &[Mark],
    dark: &[u64],
    live: &[u64],
    claims: &[Claim],
    cuts: &[bool],
    cost: u64,
) -> Result<Verdict, AllocError>
    requires sound { IsSoundParts grid.now }
    requires closed { length closed.now ≡ length grid.now.devices }
    requires marks { length marks.now ≡ length grid.now.devices }
    requires dark { length dark.now ≡ length grid.now.nodes }
    requires live { length live.now ≡ length grid.now.nodes }
    requires claims { length claims.now ≡ length grid.now.nodes }
    requires cuts { length cuts.now ≡ length grid.now.devices }
    ensures { IfOk result (λ v. v ≡ verdict_of (problem_of grid.now closed.now marks.now dark.now live.now) (table_in claims.now) (cut_in cuts.now) cost) }
{
    let by_cut = cuts::verdict(grid, closed, marks, cuts);
    if by_cut.is_invalid() {
        return Ok(by_cut);
    }
    let by_forest = forest::verdict(alloc, grid, closed, claims)?;
    if by_forest.is_invalid() {
        return Ok(by_forest);
    }
    let by_rows = rows::verdict(alloc, grid, marks, dark, live, claims)?;
    if by_rows.is_invalid() {
        return Ok(by_rows);
    }
    costs::verdict(alloc, grid, marks, dark, live, claims, cuts, cost)
}
