//! How much each device of a diagnosis is worth to the explanation of the reports.
ghost use Rattle.std.specs.Prelude.{◌≡◌, ◌≤◌, ◌<◌, ◌+◌, ◌*◌, ℕ, List, Some, true, length, map, All, IfOk};
ghost use Rattle.grid_model.specs.declared.history.Event.{Event};
ghost use Rattle.radial_forest.specs.Traversed.{parent_in};
ghost use Rattle.radial_forest.specs.Spreading.{switched};
ghost use Rattle.subtree_costs.specs.Reach.{IsReach};
ghost use Rattle.diagnosis.specs.Judgement.{opened_by, flagged};
ghost use Rattle.outage_engine.specs.Engined.{IsEngineAfter};
ghost use Rattle.blame_margins.specs.Blamed.{IsMargin, AreLowerEnds, margins_work};

use field_state::field_poses;
use grid_model::{DeviceId, Mark};
use history_rules::history_is_diagnosed;
use outage_engine::Engine;
use std::alloc::{AllocError, Global};
use std::sync::ledger::Ledger;
use subtree_costs::Steps;

/// What the explanation loses without a device of the diagnosis.
#[derive(Clone, Copy, Debug, PartialEq, Eq)]
pub struct Margin {
    pub device: DeviceId,
    /// By how much the least cost over the feasible sets without the device is greater than the least
    /// cost; none where the device is marked open, and every feasible set has it.
    pub margin: Option<u64>,
}

// The margin of a device of the diagnosis.
fn margin_of<L: Ledger>(engine: &mut Engine, device: DeviceId, steps: &mut Steps<L>) -> Margin
    requires blamed { opened_by engine.old.judged device.0 ≡ true }
    ensures same { engine.new ≡ engine.old }
    ensures device { result.device ≡ device }
    ensures margin { (h : List Event) → IsEngineAfter h engine.old
        → IsMargin engine.old.grid h device.0 result.margin }
    ensures steps { (n r : ℕ) → n < length engine.old.grid.nodes
        → parent_in engine.old.field.forest.parents n ≡ Some device
        → IsReach (switched engine.old.grid engine.old.field.forest.closed) n r
        → steps.new ≤ steps.old + 8 * (r + 1) }
{
    field_poses();
    history_is_diagnosed();
    let field = engine.field();
    let margin = if field.mark(device) == Mark::Opened {
        None
    } else {
        let least = field.costs().total();
        Some(engine.least_without(device, steps) - least)
    };
    Margin { device, margin }
}

/// The margin of each device of the diagnosis, by number. Leaves the engine as it was; an error says
/// that memory ran out.
pub fn margins<L: Ledger>(
    alloc: Global,
    engine: &mut Engine,
    steps: &mut Steps<L>,
) -> Result<Vec<Margin>, AllocError>
    ensures same { engine.new ≡ engine.old }
    ensures devices { IfOk result (λ list. map (λ m. m.device.0) list.items
        ≡ flagged engine.old.judged.opened) }
    ensures margins { IfOk result (λ list. (h : List Event) → IsEngineAfter h engine.old
        → All (λ m. IsMargin engine.old.grid h m.device.0 m.margin) list.items) }
    ensures steps { (lower reach : ℕ → ℕ) → AreLowerEnds engine.old lower reach
        → steps.new ≤ steps.old + margins_work lower reach (flagged engine.old.judged.opened) }
{
    let devices = engine.judged().opened_list(alloc)?;
    let mut margins = Vec::new(alloc);
    for device in &devices {
        margins.push(margin_of(engine, *device, steps))?;
    }
    Ok(margins)
}
