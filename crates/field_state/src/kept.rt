//! What changes with one meter's reports, one device's mark, and the passing of time alone.
ghost use Rattle.std.specs.Prelude.{◌≡◌, ◌<◌, length, slice_set, option_map};

use crate::state::State;
use due_queue::DueQueue;
use evidence::Pull;
use grid_model::{DeviceId, Grid, Mark, MeterId, Stamp};
use std::sync::ledger::Ledger;
use subtree_costs::{Steps, chains_are_within_reach};

// Gives a key this time, or none.
fn put_due(due: &mut DueQueue, key: u32, at: Option<Stamp>)
    requires { key < length due.old }
    ensures { due.new ≡ slice_set due.old key (option_map (λ t. t.0) at) }
{
    match at {
        Some(time) => due.set(key, time),
        None => due.clear(key),
    }
}

impl State {
    ghost use Rattle.std.specs.Prelude.{◌≡◌, ◌≤◌, ◌<◌, ◌+◌, ℕ, List, None, true, false, length, slice_set, slice_index_or, option_map, IsTrue};
    ghost use Rattle.grid_model.specs.declared.history.Event.{Event};
    ghost use Rattle.due_queue.specs.Due.{IsNothingDue};
    ghost use Rattle.history_rules.specs.Slots.{due_in};
    ghost use Rattle.history_rules.specs.StampTexts.{last_second};
    ghost use Rattle.evidence.specs.Kept.{kept_of, keeping, pull_by};
    ghost use Rattle.field_state.specs.FieldKept.{IsFieldKept, IsFieldAt};
    ghost use Rattle.grid_model.specs.declared.history.Mark.TheVariants.{Nothing};
    ghost use Rattle.subtree_costs.specs.Costed.{IsCosted};
    ghost use Rattle.field_state.specs.Placed.{NotesChanges};
    ghost use Rattle.field_state.specs.Acted.{IsMarkedBy};
    ghost use Rattle.field_state.specs.Repairs.{AreReaches, AreCosts, meter_length, pulls_differ, repair_if, passing_cost, marking_cost, dues_cost, spent};
    ghost use Rattle.field_state.specs.Weighed.{IsWeighed, WasWeighed, KeepsRest, IsTallied, IsTalliedBut, dues};

    // Puts what the reports of a meter weigh now in place of what they weighed before, in the sums of
    // its node, which becomes a place where they differ. The evidence is the new one already.
    fn reweigh<L: Ledger>(
        &mut self,
        grid: &Grid,
        m: MeterId,
        before: Pull,
        after: Pull,
        steps: &mut Steps<L>,
    )
        requires costed { IsCosted grid.now self.old.costs }
        requires was { WasWeighed grid.now m.0 before self.old }
        requires weight { after ≡ pull_by grid.now m.0 (kept_of self.old.evidence m.0) }
        requires meter { m.0 < length grid.now.meters }
        ensures costed { IsCosted grid.now self.new.costs }
        ensures weighed { IsWeighed grid.now self.new.evidence self.new.dark self.new.live }
        ensures due { self.new.due ≡ self.old.due }
        ensures rest { KeepsRest self.old self.new }
        ensures notes { NotesChanges grid.now self.old.costs self.new.costs self.old.places self.new.places }
        ensures steps { (reach : ℕ → ℕ) → AreReaches grid.now self.old.forest.closed reach
            → spent grid.now self.new steps.new ≤ spent grid.now self.old steps.old + repair_if (pulls_differ before after) (meter_length grid.now reach m.0) }
    {
        if before.dark == after.dark && before.live == after.live {
            return;
        }
        chains_are_within_reach();
        let node = grid.meter(m).node;
        let n = node.0 as usize;
        let dark = self.costs.dark_weights()[n] - before.dark + after.dark;
        let live = self.costs.live_weights()[n] - before.live + after.live;
        self.costs.set_weights(grid, node, dark, live, steps);
        self.places.add(node);
    }

    // Puts what the reports of a meter weigh now in place of what they weighed before, in the sums of
    // its node, and the time at which that changes next. The evidence is the new one already.
    pub(crate) fn take_pull<L: Ledger>(
        &mut self,
        grid: &Grid,
        m: MeterId,
        before: Pull,
        after: Pull,
        steps: &mut Steps<L>,
    )
        requires costed { IsCosted grid.now self.old.costs }
        requires was { WasWeighed grid.now m.0 before self.old }
        requires weight { after ≡ pull_by grid.now m.0 (kept_of self.old.evidence m.0) }
        requires meter { m.0 < length grid.now.meters }
        requires due { m.0 < length self.old.due }
        ensures costed { IsCosted grid.now self.new.costs }
        ensures weighed { IsWeighed grid.now self.new.evidence self.new.dark self.new.live }
        ensures due { self.new.due ≡ slice_set self.old.due m.0 (option_map (λ t. t.0) after.due) }
        ensures rest { KeepsRest self.old self.new }
        ensures notes { NotesChanges grid.now self.old.costs self.new.costs self.old.places self.new.places }
        ensures steps { (reach : ℕ → ℕ) → AreReaches grid.now self.old.forest.closed reach
            → spent grid.now self.new steps.new ≤ spent grid.now self.old steps.old + repair_if (pulls_differ before after) (meter_length grid.now reach m.0) }
    {
        self.reweigh(grid, m, before, after, steps);
        put_due(&mut self.due, m.0, after.due);
    }

    // Marks a device, which is closed where it is marked. Its lower end becomes a place where the mark
    // is another one than before.
    fn remark<L: Ledger>(&mut self, grid: &Grid, d: DeviceId, mark: Mark, steps: &mut Steps<L>)
        requires costed { IsCosted grid.now self.old.costs }
        requires device { d.0 < length grid.now.devices }
        requires closed { slice_index_or self.old.forest.closed d.0 false ≡ false → mark ≡ Nothing }
        ensures marked { IsMarkedBy grid.now d.0 mark (slice_index_or self.old.due (length grid.now.meters + d.0) None) self.old self.new }
        ensures steps { (reach : ℕ → ℕ) → AreReaches grid.now self.old.forest.closed reach
            → spent grid.now self.new steps.new ≤ spent grid.now self.old steps.old + marking_cost grid.now reach self.old.marks d.0 mark }
    {
        if self.costs.mark(d) == mark {
            return;
        }
        chains_are_within_reach();
        let low = self.costs.lower_end(grid, d);
        self.costs.set_mark(grid, d, mark, steps);
        self.places.add(low);
    }

    // Marks a device, which is closed where it is marked, and puts the time at which that mark ends by
    // itself.
    pub(crate) fn take_mark<L: Ledger>(
        &mut self,
        grid: &Grid,
        d: DeviceId,
        mark: Mark,
        due: Option<Stamp>,
        steps: &mut Steps<L>,
    )
        requires costed { IsCosted grid.now self.old.costs }
        requires device { d.0 < length grid.now.devices }
        requires closed { slice_index_or self.old.forest.closed d.0 false ≡ false → mark ≡ Nothing }
        requires due { length self.old.due ≡ length grid.now.meters + length grid.now.devices }
        ensures marked { IsMarkedBy grid.now d.0 mark (option_map (λ t. t.0) due) self.old self.new }
        ensures steps { (reach : ℕ → ℕ) → AreReaches grid.now self.old.forest.closed reach
            → spent grid.now self.new steps.new ≤ spent grid.now self.old steps.old + marking_cost grid.now reach self.old.marks d.0 mark }
    {
        self.remark(grid, d, mark, steps);
        put_due(&mut self.due, grid.meters() + d.0, due);
    }

    // What is kept of a meter weighs as of this time, from where it had no time.
    fn lapse<L: Ledger>(&mut self, grid: &Grid, m: MeterId, t: Stamp, steps: &mut Steps<L>)
        requires costed { IsCosted grid.now self.old.costs }
        requires tallied { IsTalliedBut grid.now t.0 m.0 self.old }
        requires meter { m.0 < length grid.now.meters }
        requires range { t.0 ≤ last_second }
        ensures costed { IsCosted grid.now self.new.costs }
        ensures tallied { IsTallied grid.now t.0 self.new }
        ensures kept { self.new.evidence ≡ keeping self.old.evidence m.0 (kept_of self.old.evidence m.0).slots t.0 }
        ensures due { self.new.due ≡ slice_set self.old.due m.0 (due_in grid.now m.0 t.0 (kept_of self.old.evidence m.0).slots) }
        ensures rest { (self.new.now ≡ self.old.now) × (self.new.applied ≡ self.old.applied) × (self.new.forest ≡ self.old.forest) × (self.new.marks ≡ self.old.marks) }
        ensures notes { NotesChanges grid.now self.old.costs self.new.costs self.old.places self.new.places }
        ensures steps { (reach : ℕ → ℕ) → AreReaches grid.now self.old.forest.closed reach
            → spent grid.now self.new steps.new ≤ spent grid.now self.old steps.old + passing_cost grid.now t.0 reach self.old.evidence m.0 }
    {
        let before = self.evidence.pull(m);
        let after = self.evidence.lapse(grid, m, t);
        self.take_pull(grid, m, before, after, steps);
    }

    // Takes one that is due at or before a time, if any is.
    fn take_due<L: Ledger>(&mut self, grid: &Grid, t: Stamp, steps: &mut Steps<L>) -> bool
        requires kept { (h : List Event) × IsFieldKept grid.now h t.0 self.old }
        requires range { t.0 ≤ last_second }
        ensures kept { (h : List Event) → IsFieldKept grid.now h t.0 self.old → IsFieldKept grid.now h t.0 self.new }
        ensures fewer { IsTrue result → dues t.0 self.new.due < dues t.0 self.old.due }
        ensures none { result ≡ false → IsNothingDue self.new.due t.0 }
        ensures same { (self.new.now ≡ self.old.now) × (self.new.applied ≡ self.old.applied) × (self.new.forest ≡ self.old.forest) }
        ensures notes { NotesChanges grid.now self.old.costs self.new.costs self.old.places self.new.places }
        ensures costs { (reach cost : ℕ → ℕ) → AreCosts grid.now t.0 reach cost self.old → AreCosts grid.now t.0 reach cost self.new }
        ensures steps { (reach cost : ℕ → ℕ) → AreReaches grid.now self.old.forest.closed reach → AreCosts grid.now t.0 reach cost self.old
            → spent grid.now self.new steps.new + dues_cost t.0 cost self.new.due ≤ spent grid.now self.old steps.old + dues_cost t.0 cost self.old.due }
    {
        let Some(key) = self.due.pop_due(t) else {
            return false;
        };
        let meters = grid.meters();
        if key < meters {
            self.lapse(grid, MeterId(key), t, steps);
        } else {
            self.take_mark(grid, DeviceId(key - meters), Mark::Nothing, None, steps);
        }
        true
    }

    // Takes all that is due at or before a time.
    pub(crate) fn advance<L: Ledger>(&mut self, grid: &Grid, t: Stamp, steps: &mut Steps<L>)
        requires kept { (h : List Event) × IsFieldKept grid.now h self.old.now self.old }
        requires later { self.old.now ≤ t.0 }
        requires range { t.0 ≤ last_second }
        ensures at { (h : List Event) → IsFieldKept grid.now h self.old.now self.old → IsFieldAt grid.now h t.0 self.new }
        ensures same { (self.new.now ≡ self.old.now) × (self.new.applied ≡ self.old.applied) × (self.new.forest ≡ self.old.forest) }
        ensures notes { NotesChanges grid.now self.old.costs self.new.costs self.old.places self.new.places }
        ensures steps { (reach cost : ℕ → ℕ) → AreReaches grid.now self.old.forest.closed reach → AreCosts grid.now t.0 reach cost self.old
            → spent grid.now self.new steps.new ≤ spent grid.now self.old steps.old + dues_cost t.0 cost self.old.due }
    {
        while self.take_due(grid, t, steps) {}
    }
}
