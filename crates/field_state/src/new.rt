//! The field before the first event.
use crate::field::Field;
use crate::places::Places;
use crate::state::State;
use due_queue::DueQueue;
use evidence::Evidence;
use grid_model::{Grid, NodeId, Stamp};
use std::alloc::{AllocError, Global};
use subtree_costs::CostForest;

impl Field {
    ghost use Rattle.std.specs.Prelude.{◌≡◌, [], IfOk};
    ghost use Rattle.field_state.specs.Fielded.{IsFieldAfter};

    /// The field before the first event: the devices in their starting states, no marks and no
    /// reports, and the clock at 0. An error says that memory ran out.
    pub fn new(alloc: Global, grid: &Grid) -> Result<Field, AllocError>
        ensures after { IfOk result (IsFieldAfter grid.now []) }
        ensures places { IfOk result (λ field. field.places ≡ []) }
    {
        let nodes = grid.nodes() as usize;
        Ok(Field {
            state: State {
                clock: Stamp(0),
                applied: 0,
                costs: CostForest::build(alloc, grid)?,
                evidence: Evidence::new(alloc, grid)?,
                due: DueQueue::new(alloc, grid.meters() + grid.devices())?,
                places: Places::new(alloc, nodes)?,
            },
            below: vec![in alloc; NodeId(0); nodes]?,
        })
    }
}
