//! What happens in a storm.
ghost use Rattle.std.specs.Prelude.{◌≡◌, ◌≤◌, ◌++◌, ◌∷◌, OnOk};
ghost use Rattle.std.specs.List.{join_with_byte};
ghost use Rattle.grid_maker.specs.Happenings.{happening, happening_words};
ghost use Rattle.grid_maker.specs.Spelled.{spelled};

use crate::draws::Drawn;
use crate::names::Part;
use crate::network::PLACES;
use crate::rows::{add_name, add_word};
use std::alloc::AllocError;

/// What an event is, at a place of the network.
#[derive(Clone, Copy)]
pub(crate) enum Happening {
    Gasp,
    Call,
    PingDown,
    PingUp,
    Powerup,
    Restore,
    ConfirmOk,
    ConfirmOpen,
    ConfirmClear,
    OpenLine,
    CloseLine,
    Clock,
    CloseTie,
    OpenTie,
}

/// What happens at a line that was drawn, in a storm over so many feeders.
#[tactic(auto, unfolding(crate::specs::Happenings::happening))]
pub(crate) fn happening_of(feeders: u32, drawn: Drawn) -> Happening
    requires { 1 ≤ feeders }
    ensures { result ≡ happening feeders drawn.feeder drawn.number drawn.pick }
{
    match drawn.pick {
        0..=44 => Happening::Gasp,
        45..=64 => Happening::Call,
        65..=69 => Happening::PingDown,
        70..=74 => Happening::PingUp,
        75..=92 => Happening::Powerup,
        93 | 94 => Happening::Restore,
        95 => Happening::ConfirmOk,
        96 => Happening::ConfirmOpen,
        97 => Happening::ConfirmClear,
        98 if drawn.number < 10 => Happening::OpenLine,
        98 => Happening::CloseLine,
        _ if drawn.feeder == feeders - 1 => Happening::Clock,
        _ if drawn.number < 10 => Happening::CloseTie,
        _ => Happening::OpenTie,
    }
}

// A word and a name, with a comma before each.
fn add_named(text: &mut Vec<u8>, word: &[u8], part: Part) -> Result<(), AllocError>
    ensures { OnOk result (text.new.items ≡ text.old.items ++ 44 ∷ (word.now ++ 44 ∷ spelled part)) }
{
    add_word(text, word)?;
    add_name(text, part)
}

// A word, a name and a word, with a comma before each.
fn add_told(text: &mut Vec<u8>, word: &[u8], part: Part, last: &[u8]) -> Result<(), AllocError>
    ensures { OnOk result (text.new.items ≡ text.old.items ++ 44 ∷ (word.now ++ 44 ∷ (spelled part ++ 44 ∷ last.now))) }
{
    add_named(text, word, part)?;
    add_word(text, last)
}

/// A comma and the words of what happens at a line that was drawn.
pub(crate) fn add_happening(
    text: &mut Vec<u8>,
    drawn: Drawn,
    happening: Happening,
) -> Result<(), AllocError>
    ensures { OnOk result (text.new.items ≡ text.old.items ++ 44 ∷ join_with_byte 44 (happening_words drawn.feeder drawn.place drawn.number happening)) }
{
    let meter = Part::Meter(drawn.feeder, drawn.place, drawn.number);
    let fuse = Part::Fuse(drawn.feeder, drawn.place);
    let line = Part::Line(drawn.feeder, 1 + drawn.place % (PLACES - 1));
    let tie = Part::Tie(drawn.feeder);
    match happening {
        Happening::Gasp => add_named(text, b"gasp", meter),
        Happening::Call => add_named(text, b"call", meter),
        Happening::PingDown => add_told(text, b"ping", meter, b"down"),
        Happening::PingUp => add_told(text, b"ping", meter, b"up"),
        Happening::Powerup => add_named(text, b"powerup", meter),
        Happening::Restore => add_named(text, b"restore", fuse),
        Happening::ConfirmOk => add_told(text, b"confirm", fuse, b"ok"),
        Happening::ConfirmOpen => add_told(text, b"confirm", fuse, b"open"),
        Happening::ConfirmClear => add_told(text, b"confirm", fuse, b"clear"),
        Happening::OpenLine => add_named(text, b"open", line),
        Happening::CloseLine => add_named(text, b"close", line),
        Happening::Clock => add_word(text, b"clock"),
        Happening::CloseTie => add_named(text, b"close", tie),
        Happening::OpenTie => add_named(text, b"open", tie),
    }
}
