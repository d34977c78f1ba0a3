//! The text of a storm that is made.
ghost use Rattle.std.specs.Prelude.{◌≡◌, ◌++◌, ◌+◌, ◌*◌, ◌<◌, ◌≤◌, OnOk, IfOk};
ghost use Rattle.history_rules.specs.StampTexts.{stamp_text, last_second};
ghost use Rattle.grid_maker.specs.EventText.{event_row, event_text};

use crate::draws::{Drawn, Draws};
use crate::happenings::{add_happening, happening_of};
use crate::rows::end_row;
use grid_model::Stamp;
use history_rules::stamp_text_is_read;
use line_text::{put_stamp, stamp_has_one_spelling};
use std::alloc::{AllocError, Global};

/// So many lines does the event text have for each feeder.
const LINES: u32 = 10_000;

/// The second of 2024-01-01T00:00:00Z, at which the first line stands.
const FIRST_SECOND: u64 = 1_704_067_200;

/// So many seconds lie between two lines.
const STEP: u64 = 7;

// The text of a second.
fn second_text(at: Stamp) -> [u8; 20]
    requires { at.0 ≤ last_second }
    ensures { result ≡ stamp_text at.0 }
{
    stamp_text_is_read();
    stamp_has_one_spelling();
    put_stamp(at)
}

// TIME, and what happens then.
fn add_event(text: &mut Vec<u8>, feeders: u32, line: u32, drawn: Drawn) -> Result<(), AllocError>
    requires { 1 ≤ feeders }
    ensures { OnOk result (text.new.items ≡ text.old.items ++ event_row feeders line drawn.feeder drawn.place drawn.number drawn.pick) }
{
    let at = Stamp(FIRST_SECOND + STEP * u64::from(line));
    text.extend_from_slice(&second_text(at))?;
    add_happening(text, drawn, happening_of(feeders, drawn))?;
    end_row(text)
}

/// The text of a storm over a network of so many feeders.
#[tactic(auto, unfolding(crate::specs::EventText::event_text))]
pub(crate) fn events_of(alloc: Global, feeders: u32) -> Result<Vec<u8>, AllocError>
    requires some { 1 ≤ feeders }
    requires few { feeders ≤ 100 }
    ensures { IfOk result (λ text. text.items ≡ event_text feeders) }
{
    let mut text = Vec::new(alloc);
    let mut draws = Draws::new(feeders);
    for line in 0..LINES * feeders {
        let drawn = draws.line(feeders);
        add_event(&mut text, feeders, line, drawn)?;
    }
    Ok(text)
}
