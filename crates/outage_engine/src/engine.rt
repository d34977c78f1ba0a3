//! The engine: a network, its field after events, what is judged of it, and the ledger of
//! interruptions.
ghost use Rattle.std.specs.Prelude.{◌≡◌, ◌≤◌, ◌+◌, true, false, List, ◌∷◌, length, map};
ghost use Rattle.grid_model.specs.declared.history.Event.{Event};
ghost use Rattle.history_rules.specs.StampTexts.{last_second};
ghost use Rattle.diagnosis.specs.Judgement.{IsSized, differences};
ghost use Rattle.field_state.specs.Fielded.{IsFieldAfter, IsField};
ghost use Rattle.outage_engine.specs.Recording.{AreFlagsOf, IsLedgerAfter};
ghost use Rattle.outage_engine.specs.Settled.{CanBeSettled, settle_work};
ghost use Rattle.outage_engine.specs.Engined.{engined, IsEngineAfter};

use crate::Applied;
use crate::bounds::bounds_of;
use crate::judging::{is_switching, judge_field};
use crate::recording::{first_ledger, record_flipped};
use bound_table::Bounds;
use diagnosis::{Judged, changes_can_be_settled};
use field_state::{Field, field_poses};
use grid_model::{DeviceId, Event, Grid, Refusal, Stamp};
use history_rules::history_is_diagnosed;
use interruption_ledger::{Ledger, ledger_is_kept};
use outage_rules::{diagnosis_is_one, one_least_cost};
use std::alloc::{AllocError, Global};
use std::marker::Model;
use std::sync::ledger::Ledger as Counter;
use subtree_costs::{Steps, fed_rows_are_exact, total_is_least};

/// A network with the state of its field after events, the diagnosis of that state, and the
/// interruptions of its meters.
#[derive(Drop)]
pub struct Engine {
    grid: Grid,
    field: Field,
    judged: Judged,
    ledger: Ledger,
}

impl Model for Engine {
    ghost use Rattle.outage_engine.specs.Engined.{Engined};

    ghost Value = { Engined };

    ghost use Rattle.outage_engine.specs.EngineInside.{engined_of, IsEngineInside};

    ghost view = { engined_of };

    ghost invariant = { IsEngineInside };
}

// The least cost of a field.
fn least_cost(field: &Field) -> u64
    ensures { result ≡ field.now.costs.total }
{
    field.costs().total()
}

// Judges what a field poses after an event, and records which meters went dark or live at the time.
fn judge<L: Counter>(
    grid: &Grid,
    field: &Field,
    judged: &mut Judged,
    ledger: &mut Ledger,
    at: Stamp,
    switched: bool,
    steps: &mut Steps<L>,
)
    requires field { IsField grid.now field.now }
    requires sized { IsSized (length grid.now.nodes) (length grid.now.devices) judged.old }
    requires each { length ledger.old.meters ≡ length grid.now.meters }
    requires settled { switched ≡ false → CanBeSettled grid.now field.now judged.old }
    requires flags { AreFlagsOf grid.now judged.old.dark ledger.old }
    requires spare { length grid.now.meters ≤ ledger.old.spare }
    requires range { at.0 ≤ last_second }
    ensures after { (h : List Event) (e : Event) → e.time ≡ at
        → IsFieldAfter grid.now (e ∷ h) field.now → IsLedgerAfter grid.now h ledger.old
        → IsEngineAfter (e ∷ h) (engined grid.now field.now judged.new ledger.new) }
    ensures changed { map (λ d. d.0) judged.new.changed
        ≡ differences judged.old.opened judged.new.opened }
    ensures spare { ledger.old.spare ≤ ledger.new.spare + length grid.now.meters }
    ensures anew { switched ≡ true → steps.new ≤ steps.old + length grid.now.nodes }
    ensures steps { switched ≡ false
        → steps.new ≤ steps.old + settle_work grid.now field.now judged.old judged.new }
{
    field_poses();
    history_is_diagnosed();
    diagnosis_is_one();
    one_least_cost();
    ledger_is_kept();
    fed_rows_are_exact();
    total_is_least();
    judged.begin();
    judge_field(grid, field, judged, switched, steps);
    record_flipped(grid, judged, ledger, at);
}

impl Engine {
    ghost use Rattle.std.specs.Prelude.{◌≡◌, ◌≤◌, ◌<◌, ◌+◌, ◌*◌, ◌^◌, ℕ, true, false, List, [], length, map, slice_index_or, Some, Ok, Err, IfOk, OnErr};
    ghost use Rattle.grid_model.specs.Problem.{mark_at};
    ghost use Rattle.grid_model.specs.declared.history.Mark.TheVariants.{Nothing};
    ghost use Rattle.radial_forest.specs.Traversed.{parent_in};
    ghost use Rattle.radial_forest.specs.Spreading.{switched};
    ghost use Rattle.subtree_costs.specs.Reach.{IsReach};
    ghost use Rattle.field_state.specs.Without.{IsLeastWithout};
    ghost use Rattle.grid_model.specs.declared.history.Event.{Event};
    ghost use Rattle.grid_model.specs.declared.history.Refusal.{Refusal};
    ghost use Rattle.history_rules.specs.StampTexts.{last_second};
    ghost use Rattle.history_rules.specs.Posed.{problem_after, refusal_of, joined, IsOfGrid};
    ghost use Rattle.diagnosis.specs.Judgement.{differences};
    ghost use Rattle.bound_table.specs.Tight.{tight_bounds};
    ghost use Rattle.bound_table.specs.Sound.{IsTableOf};
    ghost use Rattle.field_state.specs.Acted.{is_switching};
    ghost use Rattle.outage_engine.specs.declared.Applied.{Applied};
    ghost use Rattle.outage_engine.specs.Work.{AreReachesAfter, event_work};
    ghost use Rattle.outage_engine.specs.Engined.{IsEngineAfter, IsEngine, answer_by};

    /// The engine of a network before any event. An error says that memory ran out.
    pub fn new(alloc: Global, grid: Grid) -> Result<Engine, AllocError>
        ensures grid { IfOk result (λ e. e.grid ≡ grid) }
        ensures after { IfOk result (λ e. IsEngineAfter [] e) }
    {
        field_poses();
        history_is_diagnosed();
        diagnosis_is_one();
        one_least_cost();
        fed_rows_are_exact();
        total_is_least();
        let field = Field::new(alloc, &grid)?;
        let judged = Judged::new(alloc, &grid, field.costs())?;
        let ledger = first_ledger(alloc, &grid, &judged)?;
        Ok(Engine {
            grid,
            field,
            judged,
            ledger,
        })
    }

    /// Makes room for the lines that one event can end: at least one a meter. An error says that
    /// memory ran out, and changes nothing.
    pub fn reserve(&mut self) -> Result<(), AllocError>
        ensures grid { self.new.grid ≡ self.old.grid }
        ensures field { self.new.field ≡ self.old.field }
        ensures judged { self.new.judged ≡ self.old.judged }
        ensures meters { self.new.ledger.meters ≡ self.old.ledger.meters }
        ensures room { IfOk result (λ _. length self.new.grid.meters ≤ self.new.ledger.spare) }
        ensures refused { OnErr result (self.new ≡ self.old) }
        ensures already { length self.old.grid.meters ≤ self.old.ledger.spare → result ≡ Ok tt }
        ensures after { (h : List Event) → IsEngineAfter h self.old → IsEngineAfter h self.new }
        ensures engine { IsEngine self.new }
    {
        self.ledger.reserve(self.grid.meters())
    }

    /// For how many more ended lines there is room.
    pub fn spare(&self) -> u64
        ensures { result ≡ self.now.ledger.spare }
    {
        self.ledger.spare()
    }

    /// Applies an event, or refuses it by the first rule that it breaks: then everything stands as
    /// before, and no step is taken. Takes no memory, but room for a line a meter.
    ///
    /// An event that is no switching takes at most six steps for each repair and six for each device
    /// of its reach, which is for a meter the reach of its node and for a device the greater reach of
    /// its two ends, and one for each device at a node that flips, whatever the size of the network.
    /// Nothing is said of the steps of a switching.
    pub fn apply<L: Counter>(
        &mut self,
        event: Event,
        steps: &mut Steps<L>,
    ) -> Result<Applied, Refusal>
        requires of_grid { IsOfGrid self.old.grid event.what }
        requires range { event.time.0 ≤ last_second }
        requires room { self.old.field.applied < 2 ^ 32 }
        requires spare { length self.old.grid.meters ≤ self.old.ledger.spare }
        ensures grid { self.new.grid ≡ self.old.grid }
        ensures answer { (h : List Event) → IsEngineAfter h self.old
            → result ≡ answer_by self.old.grid h event (refusal_of self.old.grid h event) }
        ensures refused { (rule : Refusal) → result ≡ Err rule → self.new ≡ self.old }
        ensures idle { (rule : Refusal) → result ≡ Err rule → steps.new ≡ steps.old }
        ensures after { (h : List Event) → IsEngineAfter h self.old
            → IsEngineAfter (joined self.old.grid h event) self.new }
        ensures engine { IsEngine self.new }
        ensures changed { (applied : Applied) → result ≡ Ok applied
            → map (λ d. d.0) self.new.judged.changed
            ≡ differences self.old.judged.opened self.new.judged.opened }
        ensures spare { self.old.ledger.spare
            ≤ self.new.ledger.spare + length self.old.grid.meters }
        ensures steps { (h : List Event) (reach : ℕ → ℕ) → IsEngineAfter h self.old
            → AreReachesAfter self.old.grid h reach → is_switching event.what ≡ false
            → steps.new ≤ steps.old + event_work self.old.grid h event reach }
    {
        ledger_is_kept();
        changes_can_be_settled();
        let cost_before = least_cost(&self.field);
        self.field.apply(&self.grid, event, steps)?;
        judge(
            &self.grid,
            &self.field,
            &mut self.judged,
            &mut self.ledger,
            event.time,
            is_switching(event.what),
            steps,
        );
        Ok(Applied {
            cost_before,
            cost_after: least_cost(&self.field),
        })
    }

    /// The least cost over the feasible sets that leave out a closed device without a mark: how well
    /// the reports are explained without it. Takes no memory, and leaves all as it was.
    pub fn least_without<L: Counter>(&mut self, d: DeviceId, steps: &mut Steps<L>) -> u64
        requires device { d.0 < length self.old.grid.devices }
        requires closed { slice_index_or self.old.field.forest.closed d.0 false ≡ true }
        requires unmarked { mark_at self.old.field.marks d.0 ≡ Nothing }
        ensures same { self.new ≡ self.old }
        ensures least { (h : List Event) → IsEngineAfter h self.old
            → IsLeastWithout (problem_after self.old.grid h) d.0 result }
        ensures steps { (n r : ℕ) → n < length self.old.grid.nodes
            → parent_in self.old.field.forest.parents n ≡ Some d
            → IsReach (switched self.old.grid self.old.field.forest.closed) n r
            → steps.new ≤ steps.old + 8 * (r + 1) }
    {
        self.field.least_without(&self.grid, d, steps)
    }

    /// The network.
    pub fn grid(&self) -> &Grid
        ensures { result.now ≡ self.now.grid }
    {
        &self.grid
    }

    /// The field after the events.
    pub fn field(&self) -> &Field
        ensures field { result.now ≡ self.now.field }
        ensures engine { IsEngine self.now }
    {
        &self.field
    }

    /// The diagnosis of the events.
    pub fn judged(&self) -> &Judged
        ensures { result.now ≡ self.now.judged }
    {
        &self.judged
    }

    /// The interruptions of the meters.
    pub fn ledger(&self) -> &Ledger
        ensures ledger { result.now ≡ self.now.ledger }
        ensures engine { IsEngine self.now }
    {
        &self.ledger
    }

    /// The bounds that show the least cost. An error says that memory ran out.
    pub fn bounds(&self, alloc: Global) -> Result<Bounds, AllocError>
        ensures tight { IfOk result (λ b. (h : List Event) → IsEngineAfter h self.now
            → b ≡ tight_bounds (problem_after self.now.grid h)) }
        ensures of_network { IfOk result (λ b. IsTableOf self.now.grid b) }
    {
        field_poses();
        bounds_of(alloc, &self.grid, self.field.costs(), &self.judged)
    }
}
