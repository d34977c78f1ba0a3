//! What the children of each node add up to.
ghost use Rattle.std.specs.Prelude.{◌≡◌, ◌≤◌, ◌<◌, ◌+◌, ◌==◌, ◌^◌, ℕ, true, false, [], length, min, slice_index, slice_set, if◌then◌else◌};
ghost use Rattle.outage_rules.specs.Sum.{total};
ghost use Rattle.outage_rules.specs.Certificate.{has_parent, upper, is_child, choice, dark_share};
ghost use Rattle.grid_model.specs.Network.{network_of};
ghost use Rattle.bound_checker.specs.Chains.{AllHang};
ghost use Rattle.grid_model.specs.Problem.{problem_of, says_opened, says_fine};
ghost use Rattle.bound_checker.specs.Claimed.{table_in};

use crate::claims::Claim;
use crate::forest::{has_parent, other_end};
use grid_model::{DeviceId, Grid, Mark};

// What a child adds where the node above is live.
fn choice_of(weight: u32, mark: Mark, live: u64, dark: u64) -> u128
    ensures value { result ≡ (if says_opened mark then weight + dark else (if says_fine mark then live else min (weight + dark) live)) }
    ensures small { result < 2 ^ 65 }
{
    let open = u128::from(weight) + u128::from(dark);
    let shut = u128::from(live);
    match mark {
        Mark::Opened => open,
        Mark::Fine => shut,
        Mark::Nothing => open.min(shut),
    }
}

// What a child adds where the node above is dark.
fn dark_share_of(weight: u32, mark: Mark, dark: u64) -> u128
    ensures value { result ≡ dark + (if says_opened mark then weight else 0) }
    ensures small { result < 2 ^ 65 }
{
    let own = u128::from(dark);
    match mark {
        Mark::Opened => own + u128::from(weight),
        Mark::Fine | Mark::Nothing => own,
    }
}

// Adds at the node above what one node adds where that one is live.
fn add_choice(grid: &Grid, marks: &[Mark], claims: &[Claim], m: u32, sums: &mut [u128])
    requires node { m < length grid.now.nodes }
    requires marks { length marks.now ≡ length grid.now.devices }
    requires claims { length claims.now ≡ length grid.now.nodes }
    requires sums { length sums.old ≡ length grid.now.nodes }
    requires small { (n : ℕ) → n < length grid.now.nodes → slice_index sums.old n < 2 ^ 127 }
    requires parent { has_parent (network_of grid.now) (table_in claims.now) m ≡ true → (table_in claims.now).parent m < length grid.now.devices }
    requires upper { has_parent (network_of grid.now) (table_in claims.now) m ≡ true → upper (network_of grid.now) (table_in claims.now) m < length grid.now.nodes }
    ensures child { has_parent (network_of grid.now) (table_in claims.now) m ≡ true → sums.new ≡ slice_set sums.old (upper (network_of grid.now) (table_in claims.now) m) (slice_index sums.old (upper (network_of grid.now) (table_in claims.now) m) + choice (problem_of grid.now [] marks.now [] []) (table_in claims.now) m) }
    ensures grows { (n : ℕ) → slice_index sums.new n ≤ slice_index sums.old n + 2 ^ 65 }
    ensures other { has_parent (network_of grid.now) (table_in claims.now) m ≡ false → sums.new ≡ sums.old }
{
    if has_parent(grid, claims, m) {
        let claim = claims[m as usize];
        let device = grid.device(DeviceId(claim.parent));
        let mark = marks[claim.parent as usize];
        let above = other_end(&device, m) as usize;
        sums[above] += choice_of(device.weight, mark, claim.live, claim.dark);
    }
}

// Adds at the node above what one node adds where that one is dark.
fn add_dark_share(grid: &Grid, marks: &[Mark], claims: &[Claim], m: u32, sums: &mut [u128])
    requires node { m < length grid.now.nodes }
    requires marks { length marks.now ≡ length grid.now.devices }
    requires claims { length claims.now ≡ length grid.now.nodes }
    requires sums { length sums.old ≡ length grid.now.nodes }
    requires small { (n : ℕ) → n < length grid.now.nodes → slice_index sums.old n < 2 ^ 127 }
    requires parent { has_parent (network_of grid.now) (table_in claims.now) m ≡ true → (table_in claims.now).parent m < length grid.now.devices }
    requires upper { has_parent (network_of grid.now) (table_in claims.now) m ≡ true → upper (network_of grid.now) (table_in claims.now) m < length grid.now.nodes }
    ensures child { has_parent (network_of grid.now) (table_in claims.now) m ≡ true → sums.new ≡ slice_set sums.old (upper (network_of grid.now) (table_in claims.now) m) (slice_index sums.old (upper (network_of grid.now) (table_in claims.now) m) + dark_share (problem_of grid.now [] marks.now [] []) (table_in claims.now) m) }
    ensures grows { (n : ℕ) → slice_index sums.new n ≤ slice_index sums.old n + 2 ^ 65 }
    ensures other { has_parent (network_of grid.now) (table_in claims.now) m ≡ false → sums.new ≡ sums.old }
{
    if has_parent(grid, claims, m) {
        let claim = claims[m as usize];
        let device = grid.device(DeviceId(claim.parent));
        let mark = marks[claim.parent as usize];
        let above = other_end(&device, m) as usize;
        sums[above] += dark_share_of(device.weight, mark, claim.dark);
    }
}

// Adds up at each node what its children add where it is live.
pub(crate) fn add_choices(grid: &Grid, marks: &[Mark], claims: &[Claim], sums: &mut [u128])
    requires marks { length marks.now ≡ length grid.now.devices }
    requires claims { length claims.now ≡ length grid.now.nodes }
    requires sums { length sums.old ≡ length grid.now.nodes }
    requires zero { (n : ℕ) → slice_index sums.old n ≡ 0 }
    requires parents { AllHang (network_of grid.now) (table_in claims.now) }
    ensures sums { (n : ℕ) → n < length grid.now.nodes → slice_index sums.new n ≡ total (length grid.now.nodes) (λ m. if is_child (network_of grid.now) (table_in claims.now) n m then choice (problem_of grid.now [] marks.now [] []) (table_in claims.now) m else 0) }
    ensures small { (n : ℕ) → n < length grid.now.nodes → slice_index sums.new n < 2 ^ 127 }
{
    for m in 0..grid.nodes() {
        add_choice(grid, marks, claims, m, sums);
    }
}

// Adds up at each node what its children add where it is dark.
pub(crate) fn add_dark_shares(grid: &Grid, marks: &[Mark], claims: &[Claim], sums: &mut [u128])
    requires marks { length marks.now ≡ length grid.now.devices }
    requires claims { length claims.now ≡ length grid.now.nodes }
    requires sums { length sums.old ≡ length grid.now.nodes }
    requires zero { (n : ℕ) → slice_index sums.old n ≡ 0 }
    requires parents { AllHang (network_of grid.now) (table_in claims.now) }
    ensures sums { (n : ℕ) → n < length grid.now.nodes → slice_index sums.new n ≡ total (length grid.now.nodes) (λ m. if is_child (network_of grid.now) (table_in claims.now) n m then dark_share (problem_of grid.now [] marks.now [] []) (table_in claims.now) m else 0) }
    ensures small { (n : ℕ) → n < length grid.now.nodes → slice_index sums.new n < 2 ^ 127 }
{
    for m in 0..grid.nodes() {
        add_dark_share(grid, marks, claims, m, sums);
    }
}
