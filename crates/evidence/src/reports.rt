//! What is kept of the reports of all meters.
ghost use Rattle.std.specs.Prelude.{◌≡◌};
ghost use Rattle.grid_model.specs.Sound.{IsSoundParts};
ghost use Rattle.evidence.specs.Slot.{AreModest};

use crate::Pull;
use crate::slot::{Sign, Slot};
use grid_model::{Grid, MeterId, Setting, Stamp};
use std::alloc::{AllocError, Global};
use std::marker::Model;

/// The reports of all meters of a network, as far as they tell what weighs now or later.
#[derive(Drop)]
pub struct Evidence {
    settings: [u64; 8],
    slots: Vec<Slot>,
}

impl Model for Evidence {
    ghost use Rattle.evidence.specs.Kept.{Evident};

    ghost Value = { Evident };

    ghost use Rattle.evidence.specs.Inside.{evident_of, IsModestInside};

    ghost view = { evident_of };

    ghost invariant = { IsModestInside };
}

// The settings of a network.
fn settings_of(grid: &Grid) -> [u64; 8]
    requires { IsSoundParts grid.now }
    ensures same { result ≡ grid.now.settings }
    ensures modest { AreModest result }
{
    [
        grid.setting(Setting::Call),
        grid.setting(Setting::Gasp),
        grid.setting(Setting::PingDown),
        grid.setting(Setting::PingUp),
        grid.setting(Setting::Powerup),
        grid.setting(Setting::LiveHold),
        grid.setting(Setting::Grace),
        grid.setting(Setting::OkHold),
    ]
}

impl Evidence {
    ghost use Rattle.std.specs.Prelude.{◌≡◌, ◌<◌, ◌≤◌, false, length, slice_set, option_map, IfOk};
    ghost use Rattle.grid_model.specs.Parts.{Parts};
    ghost use Rattle.grid_model.specs.declared.history.What.TheVariants as what;
    ghost use Rattle.history_rules.specs.Slots.{slots_after, slots_restored, since_in, came_back_in};
    ghost use Rattle.history_rules.specs.StampTexts.{last_second};
    ghost use Rattle.evidence.specs.Kept.{no_evidence, kept_of, keeping, stamp_at, sign_what, pull_by, IsEvidenceOf};
    ghost use Rattle.evidence.specs.Slot.{kept_in, IsPast};

    /// Nothing was reported yet. An error says that memory ran out: no other call takes any.
    pub fn new(alloc: Global, grid: &Grid) -> Result<Evidence, AllocError>
        ensures { IfOk result (λ e. e ≡ no_evidence grid.now) }
    {
        let slots = vec![in alloc; Slot::new(); grid.meters() as usize]?;
        Ok(Evidence {
            settings: settings_of(grid),
            slots,
        })
    }

    // What is kept of a meter.
    fn slot(&self, m: MeterId) -> Slot
        requires meter { m.0 < length self.now.meters }
        ensures kept { kept_in m.0 result ≡ kept_of self.now m.0 }
        ensures past { IsPast result }
        ensures modest { AreModest self.now.settings }
    {
        self.slots[m.0 as usize]
    }

    // Keeps this of a meter.
    fn keep(&mut self, m: MeterId, slot: Slot)
        requires meter { m.0 < length self.old.meters }
        requires past { IsPast slot }
        ensures { self.new ≡ record { settings = self.old.settings; meters = slice_set self.old.meters m.0 (kept_in m.0 slot) } }
    {
        self.slots[m.0 as usize] = slot;
    }

    /// A call says that the meter is dark. Answers what the reports weigh then; the times of a
    /// meter's calls never fall.
    pub fn call(&mut self, grid: &Grid, m: MeterId, now: Stamp) -> Pull
        requires own { IsEvidenceOf grid.now self.old }
        requires meter { m.0 < length grid.now.meters }
        requires later { (kept_of self.old m.0).at ≤ now.0 }
        requires range { now.0 ≤ last_second }
        ensures pull { result ≡ pull_by grid.now m.0 (kept_of self.new m.0) }
        ensures own { IsEvidenceOf grid.now self.new }
        ensures kept { self.new ≡ keeping self.old m.0 (slots_after m.0 (record { time = now; what = what.Call m }) false (kept_of self.old m.0).slots) now.0 }
    {
        let slot = self.slot(m).called(now);
        self.keep(m, slot);
        self.pull(m)
    }

    /// The meter itself sent a signal. Answers as `call` does.
    pub fn signal(&mut self, grid: &Grid, m: MeterId, sign: Sign, now: Stamp) -> Pull
        requires own { IsEvidenceOf grid.now self.old }
        requires meter { m.0 < length grid.now.meters }
        requires later { (kept_of self.old m.0).at ≤ now.0 }
        requires range { now.0 ≤ last_second }
        ensures pull { result ≡ pull_by grid.now m.0 (kept_of self.new m.0) }
        ensures own { IsEvidenceOf grid.now self.new }
        ensures kept { self.new ≡ keeping self.old m.0 (slots_after m.0 (record { time = now; what = sign_what sign m }) false (kept_of self.old m.0).slots) now.0 }
    {
        let slot = self.slot(m).signalled(sign, now);
        self.keep(m, slot);
        self.pull(m)
    }

    /// A restoration brings the meter back. Answers as `call` does.
    pub fn restored(&mut self, grid: &Grid, m: MeterId, now: Stamp) -> Pull
        requires own { IsEvidenceOf grid.now self.old }
        requires meter { m.0 < length grid.now.meters }
        requires later { (kept_of self.old m.0).at ≤ now.0 }
        requires range { now.0 ≤ last_second }
        ensures pull { result ≡ pull_by grid.now m.0 (kept_of self.new m.0) }
        ensures own { IsEvidenceOf grid.now self.new }
        ensures kept { self.new ≡ keeping self.old m.0 (slots_restored now.0 (kept_of self.old m.0).slots) now.0 }
    {
        let slot = self.slot(m).restored(now);
        self.keep(m, slot);
        self.pull(m)
    }

    /// Time alone passed for the meter. Answers as `call` does.
    pub fn lapse(&mut self, grid: &Grid, m: MeterId, now: Stamp) -> Pull
        requires own { IsEvidenceOf grid.now self.old }
        requires meter { m.0 < length grid.now.meters }
        requires later { (kept_of self.old m.0).at ≤ now.0 }
        requires range { now.0 ≤ last_second }
        ensures pull { result ≡ pull_by grid.now m.0 (kept_of self.new m.0) }
        ensures own { IsEvidenceOf grid.now self.new }
        ensures kept { self.new ≡ keeping self.old m.0 (kept_of self.old m.0).slots now.0 }
    {
        let slot = self.slot(m).lapsed(now);
        self.keep(m, slot);
        self.pull(m)
    }

    /// What the reports of a meter weighed at the last call that named it.
    pub fn pull(&self, m: MeterId) -> Pull
        requires meter { m.0 < length self.now.meters }
        ensures { (g : Parts) → IsEvidenceOf g self.now → result ≡ pull_by g m.0 (kept_of self.now m.0) }
    {
        self.slot(m).pull(&self.settings)
    }

    /// The earliest time of a report that the meter is dark and that counted at the last call that
    /// named it.
    pub fn since(&self, m: MeterId) -> Option<Stamp>
        requires meter { m.0 < length self.now.meters }
        ensures { (g : Parts) → IsEvidenceOf g self.now → result ≡ option_map stamp_at (since_in g m.0 (kept_of self.now m.0).at (kept_of self.now m.0).slots) }
    {
        self.slot(m).since(&self.settings)
    }

    /// Whether at the last call that named the meter a dark signal counted that a restoration came
    /// after.
    pub fn came_back(&self, m: MeterId) -> bool
        requires meter { m.0 < length self.now.meters }
        ensures { (g : Parts) → IsEvidenceOf g self.now → result ≡ came_back_in g m.0 (kept_of self.now m.0).at (kept_of self.now m.0).slots }
    {
        self.slot(m).came_back(&self.settings)
    }
}
