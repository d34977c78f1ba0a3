//! The whole report as one text, and its summary.
ghost use Rattle.std.specs.Prelude.{◌≡◌, ◌≤◌, ◌++◌, List, OnOk, IfOk};
ghost use Rattle.grid_model.specs.declared.history.Event.{Event};
ghost use Rattle.history_rules.specs.Report.{first_rows_after, report_text, summary_text};
ghost use Rattle.outage_engine.specs.Engined.{IsEngineAfter};
ghost use Rattle.report_text.specs.Rows.{most_applied};

use crate::rows::{add_first_rows, add_last_row};
use crate::sections::{
    add_crew_rows, add_index_rows, add_line_rows, add_outage_rows, add_unexplained,
};
use grid_model::{Line, Outage, Period, Stamp};
use history_rules::{history_is_timely, ledger_is_timely, outages_can_be_ordered};
use interruption_ledger::ledger_is_kept;
use nested_faults::outages;
use outage_engine::Engine;
use std::alloc::{AllocError, Global};

// The first three rows.
fn add_head(text: &mut Vec<u8>, engine: &Engine, refused: u64) -> Result<(), AllocError>
    ensures { OnOk result ((h : List Event) → IsEngineAfter h engine.now
        → text.new.items ≡ text.old.items ++ first_rows_after engine.now.grid refused h) }
{
    let field = engine.field();
    add_first_rows(
        text,
        field.applied(),
        field.now(),
        refused,
        field.costs().total(),
    )
}

/// The report of an engine, where so many lines were refused. An error says that memory ran out.
pub(crate) fn report_of(
    alloc: Global,
    engine: &Engine,
    refused: u64,
    period: Period,
) -> Result<Vec<u8>, AllocError>
    requires { engine.now.field.applied ≤ most_applied }
    ensures { IfOk result (λ text. (h : List Event) → IsEngineAfter h engine.now
        → text.items ≡ report_text engine.now.grid period refused h) }
{
    history_is_timely();
    ledger_is_kept();
    ledger_is_timely();
    outages_can_be_ordered();
    let grid = engine.grid();
    let listed = outages(alloc, grid, engine.field(), engine.judged())?;
    let lines = engine.ledger().all_lines(alloc)?;
    let mut text = Vec::new(alloc);
    add_head(&mut text, engine, refused)?;
    add_outage_rows(&mut text, grid, &listed)?;
    add_crew_rows(alloc, &mut text, grid, &listed)?;
    add_unexplained(&mut text, engine)?;
    add_line_rows(&mut text, grid, &lines)?;
    add_index_rows(alloc, &mut text, grid, &lines, engine.field().now(), period)?;
    add_last_row(&mut text)?;
    Ok(text)
}

/// The report of an engine without what it says of single devices and meters, with the indices over
/// all seconds. An error says that memory ran out.
pub(crate) fn summary_of(
    alloc: Global,
    engine: &Engine,
    refused: u64,
) -> Result<Vec<u8>, AllocError>
    requires { engine.now.field.applied ≤ most_applied }
    ensures { IfOk result (λ text. (h : List Event) → IsEngineAfter h engine.now
        → text.items ≡ summary_text engine.now.grid refused h) }
{
    history_is_timely();
    ledger_is_kept();
    ledger_is_timely();
    let lines = engine.ledger().all_lines(alloc)?;
    let whole = Period {
        from: Stamp(0),
        until: None,
    };
    let mut summary = Vec::new(alloc);
    add_head(&mut summary, engine, refused)?;
    add_index_rows(
        alloc,
        &mut summary,
        engine.grid(),
        &lines,
        engine.field().now(),
        whole,
    )?;
    add_last_row(&mut summary)?;
    Ok(summary)
}
