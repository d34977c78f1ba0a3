//! The interruptions of all meters: since when each is dark, and which interruptions ended.
#![tactic(auto)]

ghost use Rattle.std.specs.Prelude.{◌≡◌, ◌++◌, ◌≤◌, ◌^◌, ℕ, None, length, slice_index_or, OnOk};
ghost use Rattle.interruption_ledger.specs.Inside.{open_lines};
ghost use Rattle.interruption_ledger.specs.Laws.{LedgerIsKept};

use grid_model::{Line, MeterId, Stamp};
use std::alloc::{AllocError, Global};
use std::marker::Model;

/// The interruptions of all meters. In contracts, what is kept of each meter's interruptions, and
/// for how many more ended ones there is room.
#[derive(Drop)]
pub struct Ledger {
    // Whether each meter is dark.
    dark: Vec<bool>,
    // The start of each meter's open line.
    starts: Vec<Option<Stamp>>,
    // The ended lines of all meters, in the order in which they ended.
    ended: Vec<Line>,
}

impl Model for Ledger {
    ghost use Rattle.interruption_ledger.specs.Ledgered.{Ledgered};

    ghost Value = { Ledgered };

    ghost use Rattle.interruption_ledger.specs.Inside.{ledgered_of, IsLedgerInside};

    ghost view = { ledgered_of };

    ghost invariant = { IsLedgerInside };
}

impl Ledger {
    ghost use Rattle.std.specs.Prelude.{◌≡◌, ◌<◌, ◌≤◌, ◌+◌, true, false, Ok, length, map, IfOk, OnErr};
    ghost use Rattle.history_rules.specs.Ledger.{interrupted_first, gone_dark, gone_live};
    ghost use Rattle.interruption_ledger.specs.Ledgered.{interrupted_at, with_meter, lines_kept};

    /// Before all events, by whether each meter is dark: one flag a meter. An error says that memory
    /// ran out.
    pub fn new(alloc: Global, dark: &[bool]) -> Result<Ledger, AllocError>
        ensures { IfOk result (λ l. l.meters ≡ map interrupted_first dark.now) }
    {
        Ok(Ledger {
            dark: dark.to_vec(alloc)?,
            starts: vec![in alloc; None; dark.len()]?,
            ended: Vec::new(alloc),
        })
    }

    /// Makes room for this many more ended lines. An error says that memory ran out, and changes
    /// nothing.
    pub fn reserve(&mut self, room: u32) -> Result<(), AllocError>
        ensures kept { self.new.meters ≡ self.old.meters }
        ensures room { IfOk result (λ _. room ≤ self.new.spare) }
        ensures refused { OnErr result (self.new ≡ self.old) }
        ensures already { room ≤ self.old.spare → result ≡ Ok tt }
    {
        self.ended.reserve(room as usize)
    }

    /// For how many more ended lines there is room.
    pub fn spare(&self) -> u64
        ensures { result ≡ self.now.spare }
    {
        (self.ended.capacity() - self.ended.len()) as u64
    }

    /// A live meter goes dark: its line opens. Takes no memory.
    pub fn went_dark(&mut self, m: MeterId, at: Stamp)
        requires meter { m.0 < length self.old.meters }
        requires live { (interrupted_at self.old m.0).dark ≡ false }
        ensures meters { self.new.meters ≡ with_meter self.old m.0 (gone_dark at (interrupted_at self.old m.0)) }
        ensures spare { self.new.spare ≡ self.old.spare }
    {
        self.dark[m.0 as usize] = true;
        self.starts[m.0 as usize] = Some(at);
    }

    /// A dark meter goes live: its open line ends, if it has one. Takes no memory, but room for a
    /// line.
    pub fn went_live(&mut self, m: MeterId, at: Stamp)
        requires meter { m.0 < length self.old.meters }
        requires dark { (interrupted_at self.old m.0).dark ≡ true }
        requires room { 1 ≤ self.old.spare }
        ensures meters { self.new.meters ≡ with_meter self.old m.0 (gone_live m.0 at (interrupted_at self.old m.0)) }
        ensures spare { self.old.spare ≤ self.new.spare + 1 }
    {
        self.dark[m.0 as usize] = false;
        if let Some(start) = self.starts[m.0 as usize] {
            self.starts[m.0 as usize] = None;
            self.ended.push_reserved(Line {
                meter: m,
                start,
                end: Some(at),
            });
        }
    }

    /// Whether a meter is dark.
    pub fn is_dark(&self, m: MeterId) -> bool
        requires { m.0 < length self.now.meters }
        ensures { result ≡ (interrupted_at self.now m.0).dark }
    {
        self.dark[m.0 as usize]
    }

    /// All lines by meter, those of a meter by time, an open one last. An error says that memory ran
    /// out.
    pub fn all_lines(&self, alloc: Global) -> Result<Vec<Line>, AllocError>
        ensures { IfOk result (λ v. v.items ≡ lines_kept self.now) }
    {
        let mut lines = self.ended.as_slice().to_vec(alloc)?;
        push_open_lines(&self.starts, &mut lines)?;
        lines.sort_by_key(|line| line.meter.0)?;
        Ok(lines)
    }
}

// Adds the lines that have started and not ended, by meter.
fn push_open_lines(starts: &[Option<Stamp>], lines: &mut Vec<Line>) -> Result<(), AllocError>
    requires { (m : ℕ) → 2 ^ 32 ≤ m → slice_index_or starts.now m None ≡ None }
    ensures { OnOk result (lines.new.items ≡ lines.old.items ++ open_lines starts.now) }
{
    for (m, start) in starts.iter().enumerate() {
        if let Some(start) = start {
            lines.push(Line {
                meter: MeterId(m as u32),
                start: *start,
                end: None,
            })?;
        }
    }
    Ok(())
}

/// What is kept of a meter after each event tells its lines and whether it is dark.
pub fn ledger_is_kept()
    ensures { LedgerIsKept }
{}
