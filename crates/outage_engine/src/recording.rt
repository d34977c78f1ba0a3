//! What the ledger of interruptions takes from a judgement.
ghost use Rattle.std.specs.Prelude.{◌≡◌, ◌≤◌, ◌<◌, ◌+◌, ◌==◌, ℕ, false, length, slice_index_or, vec_len, IfOk};
ghost use Rattle.grid_model.specs.Sound.{IsSoundParts};
ghost use Rattle.grid_model.specs.Places.{node_of};
ghost use Rattle.interruption_ledger.specs.Ledgered.{interrupted_at, with_meter};
ghost use Rattle.outage_engine.specs.Recording.{is_meter_dark, recorded, untold, AreFlagsOf, IsFirstLedger, IsTold, IsRecorded};

use diagnosis::Judged;
use grid_model::{Grid, MeterId, NodeId, Stamp};
use interruption_ledger::Ledger;
use std::alloc::{AllocError, Global};

// Whether the node of a meter is judged dark.
fn is_dark(grid: &Grid, judged: &Judged, m: MeterId) -> bool
    requires meter { m.0 < length grid.now.meters }
    requires sound { IsSoundParts grid.now }
    requires sized { length judged.now.dark ≡ length grid.now.nodes }
    ensures { result ≡ is_meter_dark grid.now judged.now m.0 }
{
    judged.is_dark(grid.meter(m).node)
}

// By meter, whether its node is judged dark.
fn dark_meters(alloc: Global, grid: &Grid, judged: &Judged) -> Result<Vec<bool>, AllocError>
    requires { length judged.now.dark ≡ length grid.now.nodes }
    ensures count { IfOk result (λ flags. vec_len flags ≡ length grid.now.meters) }
    ensures flags { IfOk result (λ flags. (m : ℕ) → m < length grid.now.meters → slice_index_or flags.items m false ≡ is_meter_dark grid.now judged.now m) }
{
    let mut flags = vec![in alloc; false; grid.meters() as usize]?;
    for m in 0..grid.meters() {
        flags[m as usize] = is_dark(grid, judged, MeterId(m));
    }
    Ok(flags)
}

/// The ledger before all events: each meter is dark as it is judged. An error says that memory ran
/// out.
pub(crate) fn first_ledger(
    alloc: Global,
    grid: &Grid,
    judged: &Judged,
) -> Result<Ledger, AllocError>
    requires { length judged.now.dark ≡ length grid.now.nodes }
    ensures { IfOk result (IsFirstLedger grid.now judged.now) }
{
    let flags = dark_meters(alloc, grid, judged)?;
    Ledger::new(alloc, &flags)
}

// Records a meter that went dark or live at a time.
fn record_meter(grid: &Grid, judged: &Judged, ledger: &mut Ledger, m: MeterId, at: Stamp)
    requires meter { m.0 < length grid.now.meters }
    requires sound { IsSoundParts grid.now }
    requires sized { length judged.now.dark ≡ length grid.now.nodes }
    requires each { length ledger.old.meters ≡ length grid.now.meters }
    requires room { untold grid.now judged.now ledger.old ≤ ledger.old.spare }
    ensures meters { ledger.new.meters ≡ with_meter ledger.old m.0 (recorded m.0 at (is_meter_dark grid.now judged.now m.0) (interrupted_at ledger.old m.0)) }
    ensures spare { ledger.old.spare + untold grid.now judged.now ledger.new ≤ ledger.new.spare + untold grid.now judged.now ledger.old }
{
    let was_dark = ledger.is_dark(m);
    let is_dark = is_dark(grid, judged, m);
    if is_dark && !was_dark {
        ledger.went_dark(m, at);
    } else if was_dark && !is_dark {
        ledger.went_live(m, at);
    }
}

// Records the meters at a node that went dark or live at a time.
fn record_node(grid: &Grid, judged: &Judged, ledger: &mut Ledger, n: NodeId, at: Stamp)
    requires node { n.0 < length grid.now.nodes }
    requires sound { IsSoundParts grid.now }
    requires sized { length judged.now.dark ≡ length grid.now.nodes }
    requires each { length ledger.old.meters ≡ length grid.now.meters }
    requires room { untold grid.now judged.now ledger.old ≤ ledger.old.spare }
    ensures { IsTold grid.now judged.now at (λ m. node_of grid.now m == n.0) ledger.old ledger.new }
{
    for m in grid.meters_at(n) {
        record_meter(grid, judged, ledger, *m, at);
    }
}

/// Records the meters that went dark or live at a time: those at the nodes that flipped since the
/// last beginning, where the ledger has each meter as its node was judged then. Costs what is told,
/// and takes no memory, but room for a line a meter.
pub(crate) fn record_flipped(grid: &Grid, judged: &Judged, ledger: &mut Ledger, at: Stamp)
    requires sound { IsSoundParts grid.now }
    requires sized { length judged.now.dark ≡ length grid.now.nodes }
    requires begun { length judged.now.dark_begun ≡ length grid.now.nodes }
    requires each { length ledger.old.meters ≡ length grid.now.meters }
    requires flags { AreFlagsOf grid.now judged.now.dark_begun ledger.old }
    requires room { length grid.now.meters ≤ ledger.old.spare }
    ensures { IsRecorded grid.now judged.now at ledger.old ledger.new }
{
    for n in judged.flipped() {
        record_node(grid, judged, ledger, *n, at);
    }
}
