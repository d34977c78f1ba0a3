//! The moves of a restoration plan.
use grid_model::{DeviceId, MeterId, Want};
use std::marker::Model;

/// A device, and whether it is to be opened or closed.
#[derive(Clone, Copy, Debug, PartialEq, Eq)]
pub struct Move {
    pub device: DeviceId,
    pub want: Want,
}

/// The moves in their order, and the meters that nothing feeds after them.
#[derive(Drop)]
pub struct Plan {
    pub moves: Vec<Move>,
    pub unfed: Vec<MeterId>,
}

impl Model for Plan {
    ghost use Rattle.restore_plan.specs.Planned.{Planned};

    ghost Value = { Planned };

    ghost view = { λ p. record { moves = p.moves.items; unfed = p.unfed.items } };
}
