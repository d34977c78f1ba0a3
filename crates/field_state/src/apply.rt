//! Which events are refused, and how an event is applied.
use crate::field::Field;
use crate::state::State;
use grid_model::{Event, Grid, NodeId, Refusal, What};
use history_rules::{evidence_is_kept, history_is_timely, weights_stay_until_due};
use std::sync::ledger::Ledger;
use subtree_costs::{Steps, changes_stay_on_walks};
use switching::decide;

impl State {
    ghost use Rattle.std.specs.Prelude.{◌≡◌, ◌≢◌, ℕ, ◌+◌, ◌<◌, ◌≤◌, ◌^◌, ◌∷◌, List, None, false, length, All};
    ghost use Rattle.grid_model.specs.declared.history.Event.{Event};
    ghost use Rattle.radial_forest.specs.Traversed.{node_at};
    ghost use Rattle.radial_forest.specs.Forested.{IsForestOf};
    ghost use Rattle.history_rules.specs.Posed.{IsOfGrid, refusal_of};
    ghost use Rattle.history_rules.specs.StampTexts.{last_second};
    ghost use Rattle.field_state.specs.Fielded.{IsField, IsFieldAfter};
    ghost use Rattle.subtree_costs.specs.Walks.{ChangeAtPlaces, ChangeOnWalks, walks_work};
    ghost use Rattle.radial_forest.specs.Spreading.{switched};
    ghost use Rattle.field_state.specs.Repairs.{AreReaches, repairs_work};
    ghost use Rattle.field_state.specs.Acted.{rule_in, is_switching};

    // The rule that refuses an event that isn't late, if one does.
    fn rule_against(&self, grid: &Grid, what: What) -> Option<Refusal>
        requires forest { IsForestOf grid.now self.now.forest.closed self.now.forest }
        requires of_grid { IsOfGrid grid.now what }
        ensures { result ≡ rule_in grid.now self.now.forest.closed what }
    {
        match what {
            What::Confirm(d, _) if !self.costs.forest().is_closed(d) => Some(Refusal::NotClosed),
            What::Restore(d) if !self.costs.forest().is_closed(d) => Some(Refusal::NotClosed),
            What::Order(d, want) => decide(grid, self.costs.forest(), d, want).err(),
            _ => None,
        }
    }

    // The rule that refuses an event, if one does.
    fn refusal(&self, grid: &Grid, event: Event) -> Option<Refusal>
        requires field { IsField grid.now self.now }
        requires of_grid { IsOfGrid grid.now event.what }
        ensures { (h : List Event) → IsFieldAfter grid.now h self.now → result ≡ refusal_of grid.now h event }
    {
        if event.time.0 < self.clock.0 {
            Some(Refusal::Backwards)
        } else {
            self.rule_against(grid, event.what)
        }
    }

    // Takes an event that no rule refuses, and says where it changes weights and marks. There is room
    // for all nodes.
    pub(crate) fn take<L: Ledger>(
        &mut self,
        grid: &Grid,
        event: Event,
        room: &mut [NodeId],
        steps: &mut Steps<L>,
    )
        requires field { (h : List Event) × IsFieldAfter grid.now h self.old × (refusal_of grid.now h event ≡ None) }
        requires of_grid { IsOfGrid grid.now event.what }
        requires range { event.time.0 ≤ last_second }
        requires count { self.old.applied < 2 ^ 32 }
        requires room { length room.old ≡ length grid.now.nodes }
        ensures after { (h : List Event) → IsFieldAfter grid.now h self.old → refusal_of grid.now h event ≡ None
            → IsFieldAfter grid.now (event ∷ h) self.new }
        ensures dark { length self.new.dark ≡ length grid.now.nodes }
        ensures noted { is_switching event.what ≡ false → ChangeAtPlaces grid.now self.old.costs self.new.costs self.new.places }
        ensures places { is_switching event.what ≡ false → ChangeOnWalks grid.now self.old.costs self.new.costs self.new.places }
        ensures places_within { All (λ n. n.0 < length grid.now.nodes) self.new.places }
        ensures steps { (h : List Event) → IsFieldAfter grid.now h self.old → refusal_of grid.now h event ≡ None → is_switching event.what ≡ false
            → (reach : ℕ → ℕ) → AreReaches grid.now self.old.forest.closed reach
            → walks_work (switched grid.now self.old.forest.closed) self.old.forest self.new.places + steps.new ≤ steps.old + repairs_work grid.now h event reach }
        ensures places_once { (i j : ℕ) → i < j → j < length self.new.places → node_at self.new.places i ≢ node_at self.new.places j }
    {
        evidence_is_kept();
        weights_stay_until_due();
        history_is_timely();
        changes_stay_on_walks();
        self.places.clear();
        self.advance(grid, event.time, steps);
        self.act(grid, event, room, steps);
        self.clock = event.time;
        self.applied += 1;
        let _places = self.places.all();
    }
}

impl Field {
    ghost use Rattle.std.specs.Prelude.{◌≡◌, ◌≢◌, ℕ, ◌+◌, ◌<◌, ◌≤◌, ◌^◌, false, List, length, All, Ok, Err};
    ghost use Rattle.grid_model.specs.declared.history.Event.{Event};
    ghost use Rattle.grid_model.specs.declared.history.Refusal.{Refusal};
    ghost use Rattle.history_rules.specs.Posed.{IsOfGrid, refusal_of, joined};
    ghost use Rattle.history_rules.specs.StampTexts.{last_second};
    ghost use Rattle.radial_forest.specs.Traversed.{node_at};
    ghost use Rattle.subtree_costs.specs.Walks.{ChangeAtPlaces, ChangeOnWalks, walks_work};
    ghost use Rattle.radial_forest.specs.Spreading.{switched};
    ghost use Rattle.field_state.specs.Repairs.{AreReaches, repairs_work};
    ghost use Rattle.field_state.specs.Acted.{is_switching};
    ghost use Rattle.field_state.specs.Fielded.{IsField, IsFieldAfter, answer_by};

    /// Applies an event, unless a rule refuses it: then the field stays as it was, and no step is taken.
    ///
    /// `Backwards`: it is earlier than the event before it. `NotClosed`: it confirms or restores an
    /// open device. `Loop`: it closes an open device that closes a loop.
    pub fn apply<L: Ledger>(
        &mut self,
        grid: &Grid,
        event: Event,
        steps: &mut Steps<L>,
    ) -> Result<(), Refusal>
        requires field { IsField grid.now self.old }
        requires of_grid { IsOfGrid grid.now event.what }
        requires range { event.time.0 ≤ last_second }
        requires room { self.old.applied < 2 ^ 32 }
        ensures answer { (h : List Event) → IsFieldAfter grid.now h self.old → result ≡ answer_by (refusal_of grid.now h event) }
        ensures refused { (rule : Refusal) → result ≡ Err rule → self.new ≡ self.old }
        ensures idle { (rule : Refusal) → result ≡ Err rule → steps.new ≡ steps.old }
        ensures after { (h : List Event) → IsFieldAfter grid.now h self.old → IsFieldAfter grid.now (joined grid.now h event) self.new }
        ensures field { IsField grid.now self.new }
        ensures steps { (h : List Event) → IsFieldAfter grid.now h self.old → result ≡ Ok tt → is_switching event.what ≡ false
            → (reach : ℕ → ℕ) → AreReaches grid.now self.old.forest.closed reach
            → walks_work (switched grid.now self.old.forest.closed) self.old.forest self.new.places + steps.new ≤ steps.old + repairs_work grid.now h event reach }
        ensures places_within { result ≡ Ok tt → All (λ n. n.0 < length grid.now.nodes) self.new.places }
        ensures places_once { result ≡ Ok tt → (i j : ℕ) → i < j → j < length self.new.places → node_at self.new.places i ≢ node_at self.new.places j }
        ensures noted { result ≡ Ok tt → is_switching event.what ≡ false → ChangeAtPlaces grid.now self.old.costs self.new.costs self.new.places }
        ensures places { result ≡ Ok tt → is_switching event.what ≡ false → ChangeOnWalks grid.now self.old.costs self.new.costs self.new.places }
    {
        if let Some(rule) = self.state.refusal(grid, event) {
            return Err(rule);
        }
        self.state.take(grid, event, &mut self.below, steps);
        Ok(())
    }
}
