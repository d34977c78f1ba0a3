//! The parts of a report that have a row for each outage, meter or interruption, and its indices.
ghost use Rattle.std.specs.Prelude.{◌≡◌, ◌<◌, ◌≤◌, ◌++◌, List, length, All, OnOk, flat_map};
ghost use Rattle.std.specs.List.{range_with_len};
ghost use Rattle.grid_model.specs.declared.history.Event.{Event};
ghost use Rattle.history_rules.specs.State.{now};
ghost use Rattle.history_rules.specs.Ledger.{IsLineBy};
ghost use Rattle.history_rules.specs.Crew.{CanBeOrdered, crew_order};
ghost use Rattle.history_rules.specs.StampTexts.{last_second};
ghost use Rattle.history_rules.specs.Report.{outage_row, crew_rows, unexplained_row, line_row, index_rows};
ghost use Rattle.indices_1366.specs.Countable.{most_lines};
ghost use Rattle.outage_engine.specs.Engined.{IsEngineAfter};
ghost use Rattle.report_text.specs.Rows.{IsOutageOf, IsLineOf};

use crate::rows::{add_contradicted, add_crew, add_index, add_line, add_outage};
use crew_list::order;
use grid_model::{Grid, Line, MeterId, Outage, Period, Stamp};
use indices_1366::totals;
use interruption_ledger::ledger_is_kept;
use outage_engine::Engine;
use std::alloc::{AllocError, Global};

/// A row for each outage.
pub(crate) fn add_outage_rows(
    text: &mut Vec<u8>,
    grid: &Grid,
    outages: &[Outage],
) -> Result<(), AllocError>
    requires { All (IsOutageOf grid.now) outages.now }
    ensures { OnOk result (text.new.items
        ≡ text.old.items ++ flat_map (outage_row grid.now) outages.now) }
{
    for outage in outages {
        add_outage(text, grid, outage)?;
    }
    Ok(())
}

/// A row for each outage in the order in which crews take them.
pub(crate) fn add_crew_rows(
    alloc: Global,
    text: &mut Vec<u8>,
    grid: &Grid,
    outages: &[Outage],
) -> Result<(), AllocError>
    requires known { All (IsOutageOf grid.now) outages.now }
    requires ordered { CanBeOrdered outages.now }
    ensures { OnOk result (text.new.items
        ≡ text.old.items ++ crew_rows grid.now 1 (crew_order outages.now)) }
{
    let places = order(alloc, outages)?;
    let mut number = 0;
    for place in &places {
        number += 1;
        add_crew(text, grid, number, outages[*place as usize].device)?;
    }
    Ok(())
}

// What the reports of a meter weigh that its judgement contradicts.
fn add_meter_row(text: &mut Vec<u8>, engine: &Engine, meter: MeterId) -> Result<(), AllocError>
    requires { meter.0 < length engine.now.grid.meters }
    ensures { OnOk result ((h : List Event) → IsEngineAfter h engine.now
        → text.new.items ≡ text.old.items ++ unexplained_row engine.now.grid h meter.0) }
{
    ledger_is_kept();
    let is_dark = engine.ledger().is_dark(meter);
    let pull = engine.field().pull(meter);
    add_contradicted(text, engine.grid(), meter, is_dark, pull)
}

/// A row for each meter whose reports the diagnosis contradicts.
pub(crate) fn add_unexplained(text: &mut Vec<u8>, engine: &Engine) -> Result<(), AllocError>
    ensures { OnOk result ((h : List Event) → IsEngineAfter h engine.now
        → text.new.items ≡ text.old.items
        ++ flat_map (unexplained_row engine.now.grid h)
        (range_with_len 0 (length engine.now.grid.meters))) }
{
    let meters = engine.grid().meters();
    for m in 0..meters {
        add_meter_row(text, engine, MeterId(m))?;
    }
    Ok(())
}

/// A row for each interruption.
pub(crate) fn add_line_rows(
    text: &mut Vec<u8>,
    grid: &Grid,
    lines: &[Line],
) -> Result<(), AllocError>
    requires { All (IsLineOf grid.now) lines.now }
    ensures { OnOk result (text.new.items
        ≡ text.old.items ++ flat_map (line_row grid.now) lines.now) }
{
    for line in lines {
        add_line(text, grid, line)?;
    }
    Ok(())
}

/// A row for each index of a period.
pub(crate) fn add_index_rows(
    alloc: Global,
    text: &mut Vec<u8>,
    grid: &Grid,
    lines: &[Line],
    now: Stamp,
    period: Period,
) -> Result<(), AllocError>
    requires second { now.0 ≤ last_second }
    requires lines { All (IsLineBy grid.now now.0) lines.now }
    requires count { length lines.now ≤ most_lines }
    ensures { OnOk result (text.new.items
        ≡ text.old.items ++ index_rows grid.now period now.0 lines.now) }
{
    let indices = totals(grid, lines, now, period);
    add_index(alloc, text, b"saifi", indices.saifi)?;
    add_index(alloc, text, b"saidi", indices.saidi)?;
    add_index(alloc, text, b"caidi", indices.caidi)
}
