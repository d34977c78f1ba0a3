//! The verdict on bounds, and its text.
ghost use Rattle.std.specs.Prelude.{◌≡◌, ◌++◌, ◌∷◌, [], List, length, codes, IfOk, OnOk};
ghost use Rattle.grid_model.specs.declared.history.Event.{Event};
ghost use Rattle.event_rules.specs.Rows.{row};
ghost use Rattle.history_rules.specs.Posed.{problem_after};
ghost use Rattle.bound_table.specs.Sound.{IsTableOf};
ghost use Rattle.bound_checker.specs.Claimed.{table_of, cut_of};
ghost use Rattle.bound_checker.specs.Verdict.{verdict_of};
ghost use Rattle.outage_engine.specs.Engined.{IsEngineAfter, IsEngine};
ghost use Rattle.run_rules.specs.Told.{check_word, place_word, verdict_text, IsPlaceOf, IsVerdictOf};
ghost use Rattle.run_rules.specs.Run.{status_of};
ghost use Rattle.check_run.specs.Reported.{IsVerdictOn, Judges};

use bound_checker::{CheckRule, Place, Verdict, check};
use bound_table::Bounds;
use grid_model::Grid;
use outage_engine::Engine;
use run_rules::Status;
use std::alloc::{AllocError, Global};

/// What a check finds on bounds: the verdict, and its text.
#[derive(Drop)]
pub(crate) struct Finding {
    pub(crate) verdict: Verdict,
    pub(crate) text: Vec<u8>,
}

// The verdict of the local check on bounds: whether they show the least cost of the events. An
// error says that memory ran out.
#[tactic(auto, unfolding(crate::specs::Reported::IsVerdictOn))]
fn verdict_by(alloc: Global, engine: &Engine, bounds: &Bounds) -> Result<Verdict, AllocError>
    requires engine { IsEngine engine.now }
    requires of_network { IsTableOf engine.now.grid bounds.now }
    ensures { IfOk result (IsVerdictOn engine.now bounds.now) }
{
    check(alloc, engine.grid(), engine.field(), bounds)
}

/// The status of a run that wrote a verdict.
pub(crate) fn status_by(verdict: Verdict) -> Status
    ensures { result ≡ status_of verdict }
{
    match verdict {
        Verdict::Valid => Status::Done,
        Verdict::Invalid { rule, .. } => Status::Invalid { rule },
    }
}

// The word of a rule of the check.
fn word_of(rule: CheckRule) -> &'static str
    ensures { result.now ≡ check_word rule }
{
    match rule {
        CheckRule::NotClosed => "NotClosed",
        CheckRule::MarkedOk => "MarkedOk",
        CheckRule::MissingOpen => "MissingOpen",
        CheckRule::BadSource => "BadSource",
        CheckRule::BadParent => "BadParent",
        CheckRule::StrayDevice => "StrayDevice",
        CheckRule::LiveRow => "LiveRow",
        CheckRule::DarkRow => "DarkRow",
        CheckRule::CutCost => "CutCost",
        CheckRule::Total => "Total",
    }
}

// The name of a node or a device, or `-` for the whole.
fn put_place(out: &mut Vec<u8>, grid: &Grid, place: Place) -> Result<(), AllocError>
    requires { IsPlaceOf grid.now place }
    ensures { OnOk result (out.new.items ≡ out.old.items ++ place_word grid.now place) }
{
    match place {
        Place::Node(node) => out.extend_from_slice(grid.node_name(node).text()),
        Place::Device(device) => out.extend_from_slice(grid.device(device).name.text()),
        Place::Nowhere => out.extend_from_slice(b"-"),
    }
}

// invalid,RULE,NAME
fn put_invalid(
    out: &mut Vec<u8>,
    grid: &Grid,
    rule: CheckRule,
    place: Place,
) -> Result<(), AllocError>
    requires { IsPlaceOf grid.now place }
    ensures { OnOk result (out.new.items ≡ out.old.items ++ row (codes "invalid" ∷ check_word rule ∷ place_word grid.now place ∷ [])) }
{
    out.extend_from_slice(b"invalid,")?;
    out.extend_from_slice(word_of(rule).as_bytes())?;
    out.push(b',')?;
    put_place(out, grid, place)?;
    out.push(b'\n')?;
    Ok(())
}

// What a check writes of a verdict: `valid`, or `invalid,RULE,NAME` with the name of the node or
// the device, `-` where the whole is meant. An error says that memory ran out.
fn text_of(alloc: Global, grid: &Grid, verdict: Verdict) -> Result<Vec<u8>, AllocError>
    requires { IsVerdictOf grid.now verdict }
    ensures { IfOk result (λ text. text.items ≡ verdict_text grid.now verdict) }
{
    let mut text = Vec::new(alloc);
    match verdict {
        Verdict::Valid => text.extend_from_slice(b"valid\n")?,
        Verdict::Invalid { rule, place } => put_invalid(&mut text, grid, rule, place)?,
    }
    Ok(text)
}

/// What is found on bounds, by the engine after all events. An error says that memory ran out.
pub(crate) fn finding_on(
    alloc: Global,
    engine: &Engine,
    bounds: &Bounds,
) -> Result<Finding, AllocError>
    requires engine { IsEngine engine.now }
    requires of_network { IsTableOf engine.now.grid bounds.now }
    ensures { IfOk result (λ found. Judges engine.now bounds.now found.verdict found.text.items) }
{
    let verdict = verdict_by(alloc, engine, bounds)?;
    let text = text_of(alloc, engine.grid(), verdict)?;
    Ok(Finding { verdict, text })
}
