//! Reading the lines of a bounds part.
ghost use Rattle.std.specs.Prelude.{◌≡◌, ◌↔◌, ◌==◌, ◌||◌, ◌∷◌, [], ℕ, false, Err, IsNone, IfNone, IfSome};
ghost use Rattle.std.specs.List.{list_any};
ghost use Rattle.grid_model.specs.Parts.{Parts};
ghost use Rattle.bound_table.specs.declared.bounds.BoundRule.TheVariants as rule;
ghost use Rattle.bound_table.specs.BoundLines.{is_plain, cost_of, cost_of_fields, device_of, node_of, cut_of, row_of, row_with, end_of, line_of, line_of_fields, parent_of, is_parent};
ghost use Rattle.bound_table.specs.Parents.{parent_named};
ghost use Rattle.bound_table.specs.Words.{spelling};

use crate::bound_line::BoundLine;
use crate::bounds::{BoundRow, BoundRule};
use crate::words::{ReportWord, report_word};
use grid_model::{DeviceId, Grid, Name, NodeId};
use line_text::{Fields, MOST_LINE, read_decimal};

/// A cost is at most this.
const MOST_COST: u64 = 1_000_000_000_000_000;

/// A depth is at most this.
const MOST_DEPTH: u64 = 1_000_000;

fn has_cr_or_quote(line: &[u8]) -> bool
    ensures { result ≡ list_any (λ b. (b == 13) || (b == 34)) line.now }
{
    line.iter().any(|b| *b == b'\r' || *b == b'"')
}

fn is_plain_line(line: &[u8]) -> bool
    ensures { result ≡ is_plain line.now }
{
    line.len() <= MOST_LINE && !has_cr_or_quote(line)
}

// bounds,COST
fn read_cost_fields(mut fields: Fields<'_>) -> Result<u64, BoundRule>
    ensures { result ≡ cost_of_fields fields.entry }
{
    let _word = fields.next().ok_or(BoundRule::BadRow)?;
    let cost = fields.next().ok_or(BoundRule::BadRow)?;
    if !fields.is_at_end() {
        return Err(BoundRule::BadRow);
    }
    read_decimal(cost, MOST_COST).ok_or(BoundRule::BadNumber)
}

/// The cost in the first line of a bounds part.
#[tactic(auto, unfolding(crate::specs::BoundLines::cost_of))]
pub(crate) fn read_cost(line: &[u8]) -> Result<u64, BoundRule>
    ensures { result ≡ cost_of line.now }
{
    if !is_plain_line(line) {
        return Err(BoundRule::BadRow);
    }
    read_cost_fields(Fields::of(line))
}

fn find_device(grid: &Grid, name: Name) -> Result<DeviceId, BoundRule>
    ensures { result ≡ device_of grid.now name }
{
    match grid.find_device(name) {
        Some(device) => Ok(device),
        None => Err(BoundRule::UnknownDevice),
    }
}

fn find_node(grid: &Grid, name: Name) -> Result<NodeId, BoundRule>
    ensures { result ≡ node_of grid.now name }
{
    match grid.find_node(name) {
        Some(node) => Ok(node),
        None => Err(BoundRule::UnknownNode),
    }
}

// DEVICE
fn read_cut(grid: &Grid, mut fields: Fields<'_>) -> Result<BoundLine, BoundRule>
    ensures { result ≡ cut_of grid.now fields.entry }
{
    let device = fields.next().ok_or(BoundRule::BadRow)?;
    if !fields.is_at_end() {
        return Err(BoundRule::BadRow);
    }
    let name = Name::read(device).ok_or(BoundRule::BadName)?;
    Ok(BoundLine::Cut(find_device(grid, name)?))
}

// The texts of a row.
#[derive(Clone, Copy)]
struct RowTexts<'a> {
    node: &'a [u8],
    parent: &'a [u8],
    depth: &'a [u8],
    live: &'a [u8],
    dark: &'a [u8],
}

// NODE,PARENT,DEPTH,LIVE,DARK
fn row_texts(mut fields: Fields<'_>) -> Option<RowTexts<'_>>
    ensures none { IfNone result ((g : Parts) → row_of g fields.entry ≡ Err rule.BadRow) }
    ensures five { IfSome result (λ row. fields.entry ≡ row.node.now ∷ row.parent.now ∷ row.depth.now ∷ row.live.now ∷ row.dark.now ∷ []) }
{
    let node = fields.next()?;
    let parent = fields.next()?;
    let depth = fields.next()?;
    let live = fields.next()?;
    let dark = fields.next()?;
    if !fields.is_at_end() {
        return None;
    }
    Some(RowTexts {
        node,
        parent,
        depth,
        live,
        dark,
    })
}

// The name of the device that feeds a node, or `-` for none.
fn read_parent(word: &[u8]) -> Option<Option<Name>>
    ensures none { IsNone result ↔ (is_parent word.now ≡ false) }
    ensures value { IfSome result (λ name. (g : Parts) → parent_of g word.now ≡ parent_named g name) }
{
    if word == b"-".as_slice() {
        return Some(None);
    }
    Some(Some(Name::read(word)?))
}

fn find_parent(grid: &Grid, name: Option<Name>) -> Result<Option<DeviceId>, BoundRule>
    ensures { result ≡ parent_named grid.now name }
{
    match name {
        Some(name) => Ok(Some(find_device(grid, name)?)),
        None => Ok(None),
    }
}

// The row of these numbers, at a node and below a device that are looked up.
fn find_row(
    grid: &Grid,
    node: Name,
    parent: Option<Name>,
    depth: u32,
    live: u64,
    dark: u64,
) -> Result<BoundLine, BoundRule>
    ensures { result ≡ row_with (node_of grid.now node) (parent_named grid.now parent) depth live dark }
{
    let node = find_node(grid, node)?;
    let parent = find_parent(grid, parent)?;
    Ok(BoundLine::Row(BoundRow {
        node,
        parent,
        depth,
        live,
        dark,
    }))
}

// The row of five texts.
fn read_row(grid: &Grid, texts: RowTexts<'_>) -> Result<BoundLine, BoundRule>
    ensures { result ≡ row_of grid.now (texts.entry.node.now ∷ texts.entry.parent.now ∷ texts.entry.depth.now ∷ texts.entry.live.now ∷ texts.entry.dark.now ∷ []) }
{
    let node = Name::read(texts.node).ok_or(BoundRule::BadName)?;
    let parent = read_parent(texts.parent).ok_or(BoundRule::BadName)?;
    let depth = read_decimal(texts.depth, MOST_DEPTH).ok_or(BoundRule::BadNumber)?;
    let live = read_decimal(texts.live, MOST_COST).ok_or(BoundRule::BadNumber)?;
    let dark = read_decimal(texts.dark, MOST_COST).ok_or(BoundRule::BadNumber)?;
    find_row(grid, node, parent, depth as u32, live, dark)
}

// Nothing behind the word.
fn read_end(fields: Fields<'_>) -> Result<BoundLine, BoundRule>
    ensures { result ≡ end_of fields.entry }
{
    if !fields.is_at_end() {
        return Err(BoundRule::BadRow);
    }
    Ok(BoundLine::End)
}

// The line of a word and of the fields behind it.
fn read_worded(
    grid: &Grid,
    may_cut: bool,
    word: ReportWord,
    fields: Fields<'_>,
) -> Result<BoundLine, BoundRule>
    ensures { result ≡ line_of_fields grid.now may_cut (spelling word ∷ fields.entry) }
{
    match word {
        ReportWord::Cut if may_cut => read_cut(grid, fields),
        ReportWord::Row => {
            let texts = row_texts(fields).ok_or(BoundRule::BadRow)?;
            read_row(grid, texts)
        }
        ReportWord::EndBounds => read_end(fields),
        _ => Err(BoundRule::BadRow),
    }
}

// The words of a line.
fn read_fields(grid: &Grid, may_cut: bool, mut fields: Fields<'_>) -> Result<BoundLine, BoundRule>
    ensures { result ≡ line_of_fields grid.now may_cut fields.entry }
{
    let word = fields.next().ok_or(BoundRule::BadRow)?;
    let Some(word) = report_word(word) else {
        return Err(BoundRule::BadRow);
    };
    read_worded(grid, may_cut, word, fields)
}

/// What a later line of a bounds part says, or the first rule that it breaks by itself.
#[tactic(auto, unfolding(crate::specs::BoundLines::line_of))]
pub(crate) fn read_line(grid: &Grid, may_cut: bool, line: &[u8]) -> Result<BoundLine, BoundRule>
    ensures { result ≡ line_of grid.now may_cut line.now }
{
    if !is_plain_line(line) {
        return Err(BoundRule::BadRow);
    }
    read_fields(grid, may_cut, Fields::of(line))
}
