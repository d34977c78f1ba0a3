//! The numbers that a storm is made of.
ghost use Rattle.std.specs.Prelude.{◌≡◌, ◌<◌, ◌^◌};
ghost use Rattle.grid_maker.specs.Draws.{next_state, drawn};

use crate::network::{PLACES, TRANSFORMERS};

/// Draws numbers one after another, each from the state that the one before it left.
#[derive(Drop)]
pub(crate) struct Draws {
    state: u64,
}

/// What a line of the event text is made of: a feeder, a place on it, a transformer there by its
/// number, and a number below 100 that picks what happens.
#[derive(Clone, Copy)]
pub(crate) struct Drawn {
    pub(crate) feeder: u32,
    pub(crate) place: u32,
    pub(crate) number: u32,
    pub(crate) pick: u32,
}

impl Draws {
    /// Before the first draw of a storm over so many feeders.
    pub(crate) fn new(feeders: u32) -> Draws
        ensures { result.state ≡ feeders }
    {
        Draws {
            state: u64::from(feeders),
        }
    }

    /// A number below a bound.
    #[tactic(auto, unfolding(crate::specs::Draws::next_state, crate::specs::Draws::drawn))]
    fn below(&mut self, bound: u32) -> u32
        requires { 0 < bound }
        ensures state { self.new.state ≡ next_state self.old.state }
        ensures drawn { result ≡ drawn self.new.state bound }
    {
        self.state = self
            .state
            .wrapping_mul(6_364_136_223_846_793_005)
            .wrapping_add(1_442_695_040_888_963_407);
        ((self.state >> 33) % u64::from(bound)) as u32
    }

    /// What the next line is made of, in a storm over so many feeders.
    pub(crate) fn line(&mut self, feeders: u32) -> Drawn
        requires { 0 < feeders }
        ensures feeder { result.feeder ≡ drawn (next_state self.old.state) feeders }
        ensures place { result.place ≡ drawn (next_state (next_state self.old.state)) 50 }
        ensures number { result.number ≡ drawn (next_state (next_state (next_state self.old.state))) 20 }
        ensures pick { result.pick ≡ drawn (next_state (next_state (next_state (next_state self.old.state)))) 100 }
        ensures state { self.new.state ≡ next_state (next_state (next_state (next_state self.old.state))) }
    {
        let feeder = self.below(feeders);
        let place = self.below(PLACES);
        let number = self.below(TRANSFORMERS);
        let pick = self.below(100);
        Drawn {
            feeder,
            place,
            number,
            pick,
        }
    }
}
