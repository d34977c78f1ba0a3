//! What an event does to the field where nothing is due.
ghost use Rattle.std.specs.Prelude.{◌≡◌, ◌<◌, ◌≤◌, ◌==◌, length};

use crate::state::State;
use evidence::Sign;
use grid_model::{
    Confirmed, DeviceId, Event, Grid, Mark, MeterId, NodeId, Setting, Stamp, Want, What,
};
use std::sync::ledger::Ledger;
use subtree_costs::Steps;
use switching::{Change, decide};

impl State {
    ghost use Rattle.std.specs.Prelude.{◌≡◌, ◌≤◌, ◌<◌, ◌+◌, ◌*◌, ◌==◌, ◌&&◌, ℕ, List, ◌∷◌, None, true, false, length, slice_index_or, nat_lt};
    ghost use Rattle.radial_forest.specs.Traversed.{node_at};
    ghost use Rattle.outage_rules.specs.Loops.{would_loop};
    ghost use Rattle.grid_model.specs.Places.{node_of, setting_of};
    ghost use Rattle.grid_model.specs.declared.parts.Setting.TheVariants.{OkHold};
    ghost use Rattle.grid_model.specs.declared.history.Stamp.{Stamp};
    ghost use Rattle.grid_model.specs.Problem.{mark_at};
    ghost use Rattle.grid_model.specs.declared.history.Mark.TheVariants.{Nothing};
    ghost use Rattle.subtree_costs.specs.Costed.{IsCosted};
    ghost use Rattle.history_rules.specs.Slots.{end_after};
    ghost use Rattle.history_rules.specs.StampTexts.{last_second};
    ghost use Rattle.grid_model.specs.Network.{network_in};
    ghost use Rattle.grid_model.specs.declared.history.What.TheVariants as what;
    ghost use Rattle.grid_model.specs.declared.history.Want.TheVariants as wanted;
    ghost use Rattle.history_rules.specs.State.{is_fed, closed_by, fine_while};
    ghost use Rattle.evidence.specs.Kept.{kept_of, sign_what};
    ghost use Rattle.grid_model.specs.declared.history.Event.{Event};
    ghost use Rattle.history_rules.specs.Posed.{IsOfGrid, refusal_of};
    ghost use Rattle.field_state.specs.FieldKept.{IsFieldAt};
    ghost use Rattle.field_state.specs.Acted.{rule_in, IsReady, IsKeptBy, IsMarkedBy, IsTurned, IsDone, restored_if, is_listed, is_brought, is_switching};
    ghost use Rattle.field_state.specs.Placed.{NotesChanges};
    ghost use Rattle.field_state.specs.Repairs.{AreReaches, meter_length, device_length, named_length, restores_cost, spent};

    // A call of a meter.
    fn call<L: Ledger>(&mut self, grid: &Grid, m: MeterId, now: Stamp, steps: &mut Steps<L>)
        requires ready { IsReady grid.now now.0 self.old }
        requires meter { m.0 < length grid.now.meters }
        requires range { now.0 ≤ last_second }
        ensures done { IsDone grid.now (record { time = now; what = what.Call m }) self.old self.new }
        ensures steps { (reach : ℕ → ℕ) → AreReaches grid.now self.old.forest.closed reach
            → spent grid.now self.new steps.new ≤ spent grid.now self.old steps.old + 6 * meter_length grid.now reach m.0 }
    {
        let before = self.evidence.pull(m);
        let after = self.evidence.call(grid, m, now);
        self.take_pull(grid, m, before, after, steps);
    }

    // A signal of a meter.
    fn signal<L: Ledger>(
        &mut self,
        grid: &Grid,
        m: MeterId,
        sign: Sign,
        now: Stamp,
        steps: &mut Steps<L>,
    )
        requires ready { IsReady grid.now now.0 self.old }
        requires meter { m.0 < length grid.now.meters }
        requires range { now.0 ≤ last_second }
        ensures done { IsDone grid.now (record { time = now; what = sign_what sign m }) self.old self.new }
        ensures steps { (reach : ℕ → ℕ) → AreReaches grid.now self.old.forest.closed reach
            → spent grid.now self.new steps.new ≤ spent grid.now self.old steps.old + 6 * meter_length grid.now reach m.0 }
    {
        let before = self.evidence.pull(m);
        let after = self.evidence.signal(grid, m, sign, now);
        self.take_pull(grid, m, before, after, steps);
    }

    // A restoration brings a meter back.
    fn restore_meter<L: Ledger>(
        &mut self,
        grid: &Grid,
        m: MeterId,
        now: Stamp,
        steps: &mut Steps<L>,
    )
        requires ready { IsReady grid.now now.0 self.old }
        requires meter { m.0 < length grid.now.meters }
        requires range { now.0 ≤ last_second }
        ensures kept { IsKeptBy grid.now now.0 (λ k. restored_if (k == m.0) now.0 (kept_of self.old.evidence k)) self.old self.new }
        ensures steps { (reach : ℕ → ℕ) → AreReaches grid.now self.old.forest.closed reach
            → spent grid.now self.new steps.new ≤ spent grid.now self.old steps.old + restores_cost grid.now now.0 reach self.old.evidence (λ k. k == m.0) }
    {
        let before = self.evidence.pull(m);
        let after = self.evidence.restored(grid, m, now);
        self.take_pull(grid, m, before, after, steps);
    }

    // A restoration brings the meters at a node back.
    fn restore_node<L: Ledger>(&mut self, grid: &Grid, n: NodeId, now: Stamp, steps: &mut Steps<L>)
        requires ready { IsReady grid.now now.0 self.old }
        requires node { n.0 < length grid.now.nodes }
        requires range { now.0 ≤ last_second }
        ensures kept { IsKeptBy grid.now now.0 (λ k. restored_if (node_of grid.now k == n.0) now.0 (kept_of self.old.evidence k)) self.old self.new }
        ensures steps { (reach : ℕ → ℕ) → AreReaches grid.now self.old.forest.closed reach
            → spent grid.now self.new steps.new ≤ spent grid.now self.old steps.old + restores_cost grid.now now.0 reach self.old.evidence (λ k. node_of grid.now k == n.0) }
    {
        for m in grid.meters_at(n) {
            self.restore_meter(grid, *m, now, steps);
        }
    }

    // A restoration brings the meters at the fed ones of these nodes back.
    fn restore_nodes<L: Ledger>(
        &mut self,
        grid: &Grid,
        nodes: &[NodeId],
        now: Stamp,
        steps: &mut Steps<L>,
    )
        requires ready { IsReady grid.now now.0 self.old }
        requires nodes { (i : ℕ) → i < length nodes.now → node_at nodes.now i < length grid.now.nodes }
        requires range { now.0 ≤ last_second }
        ensures kept { IsKeptBy grid.now now.0
            (λ k. restored_if (is_listed nodes.now (length nodes.now) (node_of grid.now k)
            && is_fed (network_in grid.now (λ e. slice_index_or self.old.forest.closed e false)) (node_of grid.now k)) now.0 (kept_of self.old.evidence k)) self.old self.new }
        ensures steps { (reach : ℕ → ℕ) → AreReaches grid.now self.old.forest.closed reach
            → spent grid.now self.new steps.new ≤ spent grid.now self.old steps.old + restores_cost grid.now now.0 reach self.old.evidence
            (λ k. is_listed nodes.now (length nodes.now) (node_of grid.now k) && is_fed (network_in grid.now (λ e. slice_index_or self.old.forest.closed e false)) (node_of grid.now k)) }
    {
        for n in nodes {
            if self.costs.forest().is_fed(grid, *n) {
                self.restore_node(grid, *n, now, steps);
            }
        }
    }

    // Marks a device as fine, for as long as such a mark holds.
    fn mark_fine<L: Ledger>(&mut self, grid: &Grid, d: DeviceId, now: Stamp, steps: &mut Steps<L>)
        requires costed { IsCosted grid.now self.old.costs }
        requires device { d.0 < length grid.now.devices }
        requires closed { slice_index_or self.old.forest.closed d.0 false ≡ true }
        requires due { length self.old.due ≡ length grid.now.meters + length grid.now.devices }
        requires range { now.0 ≤ last_second }
        ensures marked { IsMarkedBy grid.now d.0 (fine_while (nat_lt now.0 (now.0 + setting_of grid.now OkHold)))
            (end_after now.0 (now.0 + setting_of grid.now OkHold)) self.old self.new }
        ensures steps { (reach : ℕ → ℕ) → AreReaches grid.now self.old.forest.closed reach
            → spent grid.now self.new steps.new ≤ spent grid.now self.old steps.old + 6 * device_length grid.now reach d.0 }
    {
        let hold = grid.setting(Setting::OkHold);
        if hold > 0 {
            self.take_mark(grid, d, Mark::Fine, Some(Stamp(now.0 + hold)), steps);
        } else {
            self.take_mark(grid, d, Mark::Nothing, None, steps);
        }
    }

    // What a crew says of a device.
    fn confirm<L: Ledger>(
        &mut self,
        grid: &Grid,
        d: DeviceId,
        said: Confirmed,
        now: Stamp,
        steps: &mut Steps<L>,
    )
        requires ready { IsReady grid.now now.0 self.old }
        requires device { d.0 < length grid.now.devices }
        requires closed { slice_index_or self.old.forest.closed d.0 false ≡ true }
        requires range { now.0 ≤ last_second }
        ensures done { IsDone grid.now (record { time = now; what = what.Confirm d said }) self.old self.new }
        ensures steps { (reach : ℕ → ℕ) → AreReaches grid.now self.old.forest.closed reach
            → spent grid.now self.new steps.new ≤ spent grid.now self.old steps.old + 6 * device_length grid.now reach d.0 }
    {
        match said {
            Confirmed::Opened => self.take_mark(grid, d, Mark::Opened, None, steps),
            Confirmed::Fine => self.mark_fine(grid, d, now, steps),
            Confirmed::Cleared => self.take_mark(grid, d, Mark::Nothing, None, steps),
        }
    }

    // A restoration brings the meters back that a closed device feeds. There is room for all nodes.
    fn bring_back<L: Ledger>(
        &mut self,
        grid: &Grid,
        d: DeviceId,
        now: Stamp,
        room: &mut [NodeId],
        steps: &mut Steps<L>,
    )
        requires ready { IsReady grid.now now.0 self.old }
        requires device { d.0 < length grid.now.devices }
        requires closed { slice_index_or self.old.forest.closed d.0 false ≡ true }
        requires room { length room.old ≡ length grid.now.nodes }
        requires range { now.0 ≤ last_second }
        ensures kept { IsKeptBy grid.now now.0 (λ k. restored_if (is_brought grid.now self.old.forest.closed k (what.Restore d)) now.0 (kept_of self.old.evidence k)) self.old self.new }
        ensures steps { (reach : ℕ → ℕ) → AreReaches grid.now self.old.forest.closed reach
            → spent grid.now self.new steps.new ≤ spent grid.now self.old steps.old + restores_cost grid.now now.0 reach self.old.evidence (λ k. is_brought grid.now self.old.forest.closed k (what.Restore d)) }
    {
        let count = self.costs.forest().walk_below(grid, d, room);
        self.restore_nodes(grid, &room[..count], now, steps);
    }

    // A closed device feeds again what is below it. There is room for all nodes.
    fn restore<L: Ledger>(
        &mut self,
        grid: &Grid,
        d: DeviceId,
        now: Stamp,
        room: &mut [NodeId],
        steps: &mut Steps<L>,
    )
        requires ready { IsReady grid.now now.0 self.old }
        requires device { d.0 < length grid.now.devices }
        requires closed { slice_index_or self.old.forest.closed d.0 false ≡ true }
        requires room { length room.old ≡ length grid.now.nodes }
        requires range { now.0 ≤ last_second }
        ensures done { IsDone grid.now (record { time = now; what = what.Restore d }) self.old self.new }
        ensures steps { (reach : ℕ → ℕ) → AreReaches grid.now self.old.forest.closed reach
            → spent grid.now self.new steps.new ≤ spent grid.now self.old steps.old + (restores_cost grid.now now.0 reach self.old.evidence (λ k. is_brought grid.now self.old.forest.closed k (what.Restore d))
            + 6 * device_length grid.now reach d.0) }
    {
        self.bring_back(grid, d, now, room, steps);
        self.mark_fine(grid, d, now, steps);
    }

    // Puts a device into the state that is wanted, which closes no loop.
    fn turn<L: Ledger>(&mut self, grid: &Grid, d: DeviceId, want: Want, steps: &mut Steps<L>)
        requires costed { IsCosted grid.now self.old.costs }
        requires device { d.0 < length grid.now.devices }
        requires unmarked { mark_at self.old.marks d.0 ≡ Nothing }
        requires unlooped { want ≡ wanted.Closed → slice_index_or self.old.forest.closed d.0 false ≡ false
            → would_loop (network_in grid.now (λ e. slice_index_or self.old.forest.closed e false)) d.0 ≡ false }
        ensures turned { IsTurned grid.now d want self.old self.new }
    {
        match decide(grid, self.costs.forest(), d, want) {
            Ok(Change::Opens) => self.costs.rebuild(grid, d, false, steps),
            Ok(Change::Closes) => self.costs.rebuild(grid, d, true, steps),
            Ok(Change::Nothing) => {}
            Err(_) => {}
        }
    }

    // A switching order that isn't refused.
    fn order<L: Ledger>(&mut self, grid: &Grid, d: DeviceId, want: Want, steps: &mut Steps<L>)
        requires ready { (t : ℕ) × IsReady grid.now t self.old }
        requires device { d.0 < length grid.now.devices }
        requires unlooped { want ≡ wanted.Closed → slice_index_or self.old.forest.closed d.0 false ≡ false
            → would_loop (network_in grid.now (λ e. slice_index_or self.old.forest.closed e false)) d.0 ≡ false }
        ensures { (now : Stamp) → IsReady grid.now now.0 self.old → IsDone grid.now (record { time = now; what = what.Order d want }) self.old self.new }
    {
        self.take_mark(grid, d, Mark::Nothing, None, steps);
        self.turn(grid, d, want, steps);
    }

    // Does what an event says.
    fn perform<L: Ledger>(
        &mut self,
        grid: &Grid,
        event: Event,
        room: &mut [NodeId],
        steps: &mut Steps<L>,
    )
        requires ready { IsReady grid.now event.time.0 self.old }
        requires of_grid { IsOfGrid grid.now event.what }
        requires allowed { rule_in grid.now self.old.forest.closed event.what ≡ None }
        requires room { length room.old ≡ length grid.now.nodes }
        requires range { event.time.0 ≤ last_second }
        ensures done { IsDone grid.now event self.old self.new }
        ensures steps { is_switching event.what ≡ false → (reach : ℕ → ℕ) → AreReaches grid.now self.old.forest.closed reach
            → spent grid.now self.new steps.new ≤ spent grid.now self.old steps.old
            + (restores_cost grid.now event.time.0 reach self.old.evidence (λ k. is_brought grid.now self.old.forest.closed k event.what) + 6 * named_length grid.now reach event.what) }
    {
        match event.what {
            What::Call(m) => self.call(grid, m, event.time, steps),
            What::Gasp(m) => self.signal(grid, m, Sign::Gasp, event.time, steps),
            What::PingDown(m) => self.signal(grid, m, Sign::PingDown, event.time, steps),
            What::PingUp(m) => self.signal(grid, m, Sign::PingUp, event.time, steps),
            What::Powerup(m) => self.signal(grid, m, Sign::Powerup, event.time, steps),
            What::Confirm(d, said) => self.confirm(grid, d, said, event.time, steps),
            What::Restore(d) => self.restore(grid, d, event.time, room, steps),
            What::Order(d, want) => self.order(grid, d, want, steps),
            What::Clock => {}
        }
    }

    // Does what an event says that no rule refuses, at its time, where nothing is due. There is room
    // for all nodes.
    pub(crate) fn act<L: Ledger>(
        &mut self,
        grid: &Grid,
        event: Event,
        room: &mut [NodeId],
        steps: &mut Steps<L>,
    )
        requires at { (h : List Event) × IsFieldAt grid.now h event.time.0 self.old × (refusal_of grid.now h event ≡ None) }
        requires of_grid { IsOfGrid grid.now event.what }
        requires room { length room.old ≡ length grid.now.nodes }
        requires range { event.time.0 ≤ last_second }
        ensures at { (h : List Event) → IsFieldAt grid.now h event.time.0 self.old → refusal_of grid.now h event ≡ None
            → IsFieldAt grid.now (event ∷ h) event.time.0 self.new }
        ensures same { (self.new.now ≡ self.old.now) × (self.new.applied ≡ self.old.applied) }
        ensures notes { is_switching event.what ≡ false → NotesChanges grid.now self.old.costs self.new.costs self.old.places self.new.places }
        ensures steps { is_switching event.what ≡ false → (reach : ℕ → ℕ) → AreReaches grid.now self.old.forest.closed reach
            → spent grid.now self.new steps.new ≤ spent grid.now self.old steps.old
            + (restores_cost grid.now event.time.0 reach self.old.evidence (λ k. is_brought grid.now self.old.forest.closed k event.what) + 6 * named_length grid.now reach event.what) }
    {
        self.perform(grid, event, room, steps);
    }
}
