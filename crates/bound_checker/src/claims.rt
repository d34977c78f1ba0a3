//! Bounds by number: a claim for each node, and a flag for each device.
ghost use Rattle.std.specs.Prelude.{◌≡◌, ◌<◌, ℕ, false, length, slice_index_or, vec_len, All, IfOk, IfSome};
ghost use Rattle.bound_checker.specs.Claimed.{claim_of, claim_at, no_claim, table_of, table_in, cut_of, cut_in};

use bound_table::BoundRow;
use grid_model::DeviceId;
use std::alloc::{AllocError, Global};

// What is claimed of a node: nothing where it isn't listed. The number past the last device stands
// for no parent.
#[derive(Clone, Copy)]
pub(crate) struct Claim {
    pub is_listed: bool,
    pub parent: u32,
    pub depth: u32,
    pub live: u64,
    pub dark: u64,
}

// No row.
fn no_claim() -> Claim
    ensures { result ≡ no_claim }
{
    Claim {
        is_listed: false,
        parent: 0,
        depth: 0,
        live: 0,
        dark: 0,
    }
}

// What a row claims.
fn claim_of(devices: u32, row: BoundRow) -> Claim
    ensures { result ≡ claim_of devices row }
{
    let parent = match row.parent {
        Some(device) => device.0,
        None => devices,
    };
    Claim {
        is_listed: true,
        parent,
        depth: row.depth,
        live: row.live,
        dark: row.dark,
    }
}

// Writes the claims of rows over those of nodes without rows. The first row of a node stands.
fn write_rows(devices: u32, rows: &[BoundRow], claims: &mut [Claim])
    requires within { All (λ r. r.node.0 < length claims.old) rows.now }
    requires empty { (n : ℕ) → slice_index_or claims.old n no_claim ≡ no_claim }
    ensures { (n : ℕ) → slice_index_or claims.new n no_claim ≡ claim_at devices rows.now n }
{
    for i in (0..rows.len()).rev() {
        claims[rows[i].node.0 as usize] = claim_of(devices, rows[i]);
    }
}

// The claims of all nodes.
pub(crate) fn by_node(
    alloc: Global,
    nodes: u32,
    devices: u32,
    rows: &[BoundRow],
) -> Result<Vec<Claim>, AllocError>
    requires { All (λ r. r.node.0 < nodes) rows.now }
    ensures count { IfOk result (λ claims. vec_len claims ≡ nodes) }
    ensures table { IfOk result (λ claims. table_in claims.items ≡ table_of devices rows.now) }
{
    let mut claims = vec![in alloc; no_claim(); nodes as usize]?;
    write_rows(devices, rows, &mut claims);
    Ok(claims)
}

// Whether each device is cut.
pub(crate) fn cut_flags(
    alloc: Global,
    devices: u32,
    cuts: &[DeviceId],
) -> Result<Vec<bool>, AllocError>
    requires { All (λ d. d.0 < devices) cuts.now }
    ensures count { IfOk result (λ flags. vec_len flags ≡ devices) }
    ensures cut { IfOk result (λ flags. cut_in flags.items ≡ cut_of cuts.now) }
{
    let mut flags = vec![in alloc; false; devices as usize]?;
    write_cuts(cuts, &mut flags);
    Ok(flags)
}

// Sets the flags of devices that are cut.
fn write_cuts(cuts: &[DeviceId], flags: &mut [bool])
    requires within { All (λ d. d.0 < length flags.old) cuts.now }
    requires empty { (d : ℕ) → slice_index_or flags.old d false ≡ false }
    ensures { (d : ℕ) → slice_index_or flags.new d false ≡ cut_of cuts.now d }
{
    for cut in cuts {
        flags[cut.0 as usize] = true;
    }
}
