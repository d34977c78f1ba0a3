//! The names of a network that is made.
ghost use Rattle.std.specs.Prelude.{◌≡◌, ◌++◌, ◌∷◌, [], OnOk, decimal};
ghost use Rattle.grid_maker.specs.Names.{numbered};
ghost use Rattle.grid_maker.specs.Spelled.{spelled};

use line_text::put_decimal;
use std::alloc::AllocError;

/// A part of a network that is made, by the number of its feeder, of its place on the main line of
/// that feeder, and of its transformer at that place.
#[derive(Clone, Copy)]
pub(crate) enum Part {
    /// The source of a feeder.
    Source(u32),
    /// The breaker between the source and the first place.
    Breaker(u32),
    /// A place of the main line.
    Place(u32, u32),
    /// The line to a place from the one before it.
    Line(u32, u32),
    /// The fuse at a place.
    Fuse(u32, u32),
    /// The node behind a fuse.
    Branch(u32, u32),
    /// A transformer on a branch.
    Transformer(u32, u32, u32),
    /// The node behind a transformer.
    Service(u32, u32, u32),
    /// The meter behind a transformer.
    Meter(u32, u32, u32),
    /// The tie from a feeder to the next one.
    Tie(u32),
}

// A letter and a number.
fn put_one(text: &mut Vec<u8>, letter: u8, first: u32) -> Result<(), AllocError>
    ensures { OnOk result (text.new.items ≡ text.old.items ++ numbered (letter ∷ []) (first ∷ [])) }
{
    text.push(letter)?;
    put_decimal(text, u64::from(first))
}

// A dot and a number.
fn put_dotted(text: &mut Vec<u8>, number: u32) -> Result<(), AllocError>
    ensures { OnOk result (text.new.items ≡ text.old.items ++ 46 ∷ decimal number) }
{
    text.push(b'.')?;
    put_decimal(text, u64::from(number))
}

// A letter and two numbers with a dot between them.
fn put_two(text: &mut Vec<u8>, letter: u8, first: u32, second: u32) -> Result<(), AllocError>
    ensures { OnOk result (text.new.items ≡ text.old.items ++ numbered (letter ∷ []) (first ∷ second ∷ [])) }
{
    put_one(text, letter, first)?;
    put_dotted(text, second)
}

// A letter and three numbers with dots between them.
fn put_three(
    text: &mut Vec<u8>,
    letter: u8,
    first: u32,
    second: u32,
    third: u32,
) -> Result<(), AllocError>
    ensures { OnOk result (text.new.items ≡ text.old.items ++ numbered (letter ∷ []) (first ∷ second ∷ third ∷ [])) }
{
    put_two(text, letter, first, second)?;
    put_dotted(text, third)
}

/// The name of a part.
#[tactic(auto, unfolding(crate::specs::Names::source_name, crate::specs::Names::breaker_name, crate::specs::Names::place_name, crate::specs::Names::line_name, crate::specs::Names::fuse_name, crate::specs::Names::branch_name, crate::specs::Names::transformer_name, crate::specs::Names::service_name, crate::specs::Names::meter_name, crate::specs::Names::tie_name))]
pub(crate) fn put_name(text: &mut Vec<u8>, part: Part) -> Result<(), AllocError>
    ensures { OnOk result (text.new.items ≡ text.old.items ++ spelled part) }
{
    match part {
        Part::Source(feeder) => put_one(text, b'S', feeder),
        Part::Breaker(feeder) => put_one(text, b'B', feeder),
        Part::Place(feeder, place) => put_two(text, b'N', feeder, place),
        Part::Line(feeder, place) => put_two(text, b'L', feeder, place),
        Part::Fuse(feeder, place) => put_two(text, b'F', feeder, place),
        Part::Branch(feeder, place) => put_two(text, b'P', feeder, place),
        Part::Transformer(feeder, place, number) => put_three(text, b'T', feeder, place, number),
        Part::Service(feeder, place, number) => put_three(text, b'D', feeder, place, number),
        Part::Meter(feeder, place, number) => put_three(text, b'M', feeder, place, number),
        Part::Tie(feeder) => put_one(text, b'X', feeder),
    }
}
