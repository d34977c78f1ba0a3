//! Printing bounds.
ghost use Rattle.std.specs.Prelude.{◌≡◌, ◌<◌, ◌++◌, ◌∷◌, [], length, OnOk, IfOk, IfSome, All, flat_map, codes, decimal};
ghost use Rattle.bound_table.specs.Sound.{IsTableOf, IsRowOf};
ghost use Rattle.bound_table.specs.Printed.{device_name, node_name, parent_word, cost_text, cut_text, row_text, end_text, bounds_text};
ghost use Rattle.bound_table.specs.Words.{spelling};

use crate::bounds::{BoundRow, Bounds};
use crate::words::{ReportWord, text_of};
use grid_model::{DeviceId, Grid, NodeId};
use line_text::put_decimal;
use std::alloc::{AllocError, Global};

// A word and a comma.
fn put_word(text: &mut Vec<u8>, word: ReportWord) -> Result<(), AllocError>
    ensures { OnOk result (text.new.items ≡ text.old.items ++ spelling word ++ 44 ∷ []) }
{
    text.extend_from_slice(text_of(word))?;
    text.push(b',')?;
    Ok(())
}

// bounds,COST
fn put_cost(text: &mut Vec<u8>, bounds: &Bounds) -> Result<(), AllocError>
    ensures { OnOk result (text.new.items ≡ text.old.items ++ cost_text bounds.now) }
{
    put_word(text, ReportWord::Bounds)?;
    put_decimal(text, bounds.cost)?;
    text.push(b'\n')?;
    Ok(())
}

fn put_device(text: &mut Vec<u8>, grid: &Grid, device: DeviceId) -> Result<(), AllocError>
    requires { device.0 < length grid.now.devices }
    ensures { OnOk result (text.new.items ≡ text.old.items ++ device_name grid.now device) }
{
    text.extend_from_slice(grid.device(device).name.text())
}

fn put_node(text: &mut Vec<u8>, grid: &Grid, node: NodeId) -> Result<(), AllocError>
    requires { node.0 < length grid.now.nodes }
    ensures { OnOk result (text.new.items ≡ text.old.items ++ node_name grid.now node) }
{
    text.extend_from_slice(grid.node_name(node).text())
}

fn put_parent(text: &mut Vec<u8>, grid: &Grid, parent: Option<DeviceId>) -> Result<(), AllocError>
    requires { IfSome parent (λ d. d.0 < length grid.now.devices) }
    ensures { OnOk result (text.new.items ≡ text.old.items ++ parent_word grid.now parent) }
{
    match parent {
        Some(device) => put_device(text, grid, device),
        None => text.extend_from_slice(b"-"),
    }
}

// cut,DEVICE
fn put_cut(text: &mut Vec<u8>, grid: &Grid, cut: DeviceId) -> Result<(), AllocError>
    requires { cut.0 < length grid.now.devices }
    ensures { OnOk result (text.new.items ≡ text.old.items ++ cut_text grid.now cut) }
{
    put_word(text, ReportWord::Cut)?;
    put_device(text, grid, cut)?;
    text.push(b'\n')?;
    Ok(())
}

// A comma and a number.
fn put_number(text: &mut Vec<u8>, number: u64) -> Result<(), AllocError>
    ensures { OnOk result (text.new.items ≡ text.old.items ++ 44 ∷ decimal number) }
{
    text.push(b',')?;
    put_decimal(text, number)
}

// row,NODE,PARENT,DEPTH,LIVE,DARK
fn put_row(text: &mut Vec<u8>, grid: &Grid, row: &BoundRow) -> Result<(), AllocError>
    requires { IsRowOf grid.now row.now }
    ensures { OnOk result (text.new.items ≡ text.old.items ++ row_text grid.now row.now) }
{
    put_word(text, ReportWord::Row)?;
    put_node(text, grid, row.node)?;
    text.push(b',')?;
    put_parent(text, grid, row.parent)?;
    put_number(text, u64::from(row.depth))?;
    put_number(text, row.live)?;
    put_number(text, row.dark)?;
    text.push(b'\n')?;
    Ok(())
}

fn put_cuts(text: &mut Vec<u8>, grid: &Grid, cuts: &[DeviceId]) -> Result<(), AllocError>
    requires { All (λ d. d.0 < length grid.now.devices) cuts.now }
    ensures { OnOk result (text.new.items ≡ text.old.items ++ flat_map (cut_text grid.now) cuts.now) }
{
    for cut in cuts {
        put_cut(text, grid, *cut)?;
    }
    Ok(())
}

fn put_rows(text: &mut Vec<u8>, grid: &Grid, rows: &[BoundRow]) -> Result<(), AllocError>
    requires { All (IsRowOf grid.now) rows.now }
    ensures { OnOk result (text.new.items ≡ text.old.items ++ flat_map (row_text grid.now) rows.now) }
{
    for row in rows {
        put_row(text, grid, row)?;
    }
    Ok(())
}

// endbounds
fn put_end(text: &mut Vec<u8>) -> Result<(), AllocError>
    ensures { OnOk result (text.new.items ≡ text.old.items ++ end_text) }
{
    text.extend_from_slice(text_of(ReportWord::EndBounds))?;
    text.push(b'\n')?;
    Ok(())
}

/// The bounds part of a report: `bounds,COST`, a line `cut,DEVICE` for each cut, a line
/// `row,NODE,PARENT,DEPTH,LIVE,DARK` for each row, and `endbounds`.
#[tactic(auto, unfolding(crate::specs::Printed::bounds_text))]
pub fn put_bounds(alloc: Global, grid: &Grid, bounds: &Bounds) -> Result<Vec<u8>, AllocError>
    requires { IsTableOf grid.now bounds.now }
    ensures { IfOk result (λ text. text.items ≡ bounds_text grid.now bounds.now) }
{
    let mut text = Vec::new(alloc);
    put_cost(&mut text, bounds)?;
    put_cuts(&mut text, grid, &bounds.cuts)?;
    put_rows(&mut text, grid, &bounds.rows)?;
    put_end(&mut text)?;
    Ok(text)
}
