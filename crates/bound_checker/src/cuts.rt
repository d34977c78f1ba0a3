//! The conditions on the cut by itself.
ghost use Rattle.std.specs.Prelude.{◌≡◌, length, [], slice_index_or, false};
ghost use Rattle.grid_model.specs.Network.{network_in};
ghost use Rattle.grid_model.specs.Problem.{problem_of, says_fine, says_opened};
ghost use Rattle.bound_checker.specs.Claimed.{cut_in};
ghost use Rattle.bound_checker.specs.Conditions.{is_not_closed, is_cut_though_ok, is_missing};
ghost use Rattle.bound_checker.specs.Verdict.{first_below, first_failed, cut_trials};

use crate::rules::{CheckRule, Verdict};
use grid_model::{Grid, Mark};

// Whether a device is marked ok.
fn is_fine(mark: Mark) -> bool
    ensures { result ≡ says_fine mark }
{
    matches!(mark, Mark::Fine)
}

// Whether a device is marked open.
fn is_opened(mark: Mark) -> bool
    ensures { result ≡ says_opened mark }
{
    matches!(mark, Mark::Opened)
}

// The first cut that isn't closed.
fn first_not_closed(grid: &Grid, closed: &[bool], cuts: &[bool]) -> Option<u32>
    requires closed { length closed.now ≡ length grid.now.devices }
    requires cuts { length cuts.now ≡ length grid.now.devices }
    ensures { result ≡ first_below (length grid.now.devices) (is_not_closed (network_in grid.now (λ d. slice_index_or closed.now d false)) (cut_in cuts.now)) }
{
    for d in 0..grid.devices() {
        if cuts[d as usize] && !closed[d as usize] {
            return Some(d);
        }
    }
    None
}

// The first cut that is marked ok.
fn first_marked_ok(grid: &Grid, marks: &[Mark], cuts: &[bool]) -> Option<u32>
    requires marks { length marks.now ≡ length grid.now.devices }
    requires cuts { length cuts.now ≡ length grid.now.devices }
    ensures { result ≡ first_below (length grid.now.devices) (is_cut_though_ok (problem_of grid.now [] marks.now [] []) (cut_in cuts.now)) }
{
    for d in 0..grid.devices() {
        if cuts[d as usize] && is_fine(marks[d as usize]) {
            return Some(d);
        }
    }
    None
}

// The first device that is marked open and isn't cut.
fn first_missing(grid: &Grid, marks: &[Mark], cuts: &[bool]) -> Option<u32>
    requires marks { length marks.now ≡ length grid.now.devices }
    requires cuts { length cuts.now ≡ length grid.now.devices }
    ensures { result ≡ first_below (length grid.now.devices) (is_missing (problem_of grid.now [] marks.now [] []) (cut_in cuts.now)) }
{
    for d in 0..grid.devices() {
        if is_opened(marks[d as usize]) && !cuts[d as usize] {
            return Some(d);
        }
    }
    None
}

// The first of these conditions that fails.
pub(crate) fn verdict(grid: &Grid, closed: &[bool], marks: &[Mark], cuts: &[bool]) -> Verdict
    requires closed { length closed.now ≡ length grid.now.devices }
    requires marks { length marks.now ≡ length grid.now.devices }
    requires cuts { length cuts.now ≡ length grid.now.devices }
    ensures { result ≡ first_failed (cut_trials (problem_of grid.now closed.now marks.now [] []) (cut_in cuts.now)) }
{
    if let Some(d) = first_not_closed(grid, closed, cuts) {
        return Verdict::at_device(CheckRule::NotClosed, d);
    }
    if let Some(d) = first_marked_ok(grid, marks, cuts) {
        return Verdict::at_device(CheckRule::MarkedOk, d);
    }
    if let Some(d) = first_missing(grid, marks, cuts) {
        return Verdict::at_device(CheckRule::MissingOpen, d);
    }
    Verdict::Valid
}
