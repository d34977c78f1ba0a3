//! The text of a network that is made.
ghost use Rattle.std.specs.Prelude.{◌≡◌, ◌++◌, ◌+◌, ◌-◌, ◌≤◌, ◌<◌, OnOk, IfOk};
ghost use Rattle.grid_maker.specs.NetworkText as spec;
ghost use Rattle.grid_maker.specs.NetworkText.{each, network_text};

use crate::names::Part;
use crate::rows::{add_device, add_meter, add_source};
use std::alloc::{AllocError, Global};

/// So many places does the main line of a feeder have, each with a fuse.
pub(crate) const PLACES: u32 = 50;

/// So many transformers stand behind a fuse, each with a meter.
pub(crate) const TRANSFORMERS: u32 = 20;

// The breaker of a feeder.
fn add_breaker(text: &mut Vec<u8>, feeder: u32) -> Result<(), AllocError>
    ensures { OnOk result (text.new.items ≡ text.old.items ++ spec.breaker_row feeder) }
{
    add_device(
        text,
        Part::Breaker(feeder),
        b"breaker",
        Part::Source(feeder),
        Part::Place(feeder, 0),
        b"closed",
    )
}

// The line to a place from the one before it.
fn add_line(text: &mut Vec<u8>, feeder: u32, place: u32) -> Result<(), AllocError>
    requires { 1 ≤ place }
    ensures { OnOk result (text.new.items ≡ text.old.items ++ spec.line_row feeder place) }
{
    add_device(
        text,
        Part::Line(feeder, place),
        b"line",
        Part::Place(feeder, place - 1),
        Part::Place(feeder, place),
        b"closed",
    )
}

// The fuse at a place.
fn add_fuse(text: &mut Vec<u8>, feeder: u32, place: u32) -> Result<(), AllocError>
    ensures { OnOk result (text.new.items ≡ text.old.items ++ spec.fuse_row feeder place) }
{
    add_device(
        text,
        Part::Fuse(feeder, place),
        b"fuse",
        Part::Place(feeder, place),
        Part::Branch(feeder, place),
        b"closed",
    )
}

// A transformer and its meter.
fn add_service(text: &mut Vec<u8>, feeder: u32, place: u32, number: u32) -> Result<(), AllocError>
    ensures { OnOk result (text.new.items ≡ text.old.items ++ spec.service_rows feeder place number) }
{
    add_device(
        text,
        Part::Transformer(feeder, place, number),
        b"transformer",
        Part::Branch(feeder, place),
        Part::Service(feeder, place, number),
        b"closed",
    )?;
    add_meter(
        text,
        Part::Meter(feeder, place, number),
        Part::Service(feeder, place, number),
        1 + number % 3,
    )
}

// A fuse and the transformers behind it.
#[tactic(auto, unfolding(crate::specs::NetworkText::branch_rows))]
fn add_branch(text: &mut Vec<u8>, feeder: u32, place: u32) -> Result<(), AllocError>
    ensures { OnOk result (text.new.items ≡ text.old.items ++ spec.branch_rows feeder place) }
{
    add_fuse(text, feeder, place)?;
    for number in 0..TRANSFORMERS {
        add_service(text, feeder, place, number)?;
    }
    Ok(())
}

// The main line of a feeder, from its source on.
#[tactic(auto, unfolding(crate::specs::NetworkText::main_rows))]
fn add_main(text: &mut Vec<u8>, feeder: u32) -> Result<(), AllocError>
    ensures { OnOk result (text.new.items ≡ text.old.items ++ spec.main_rows feeder) }
{
    add_source(text, Part::Source(feeder))?;
    add_breaker(text, feeder)?;
    for place in 1..PLACES {
        add_line(text, feeder, place)?;
    }
    Ok(())
}

// A feeder.
#[tactic(auto, unfolding(crate::specs::NetworkText::feeder_rows))]
fn add_feeder(text: &mut Vec<u8>, feeder: u32) -> Result<(), AllocError>
    ensures { OnOk result (text.new.items ≡ text.old.items ++ spec.feeder_rows feeder) }
{
    add_main(text, feeder)?;
    for place in 0..PLACES {
        add_branch(text, feeder, place)?;
    }
    Ok(())
}

// The tie from the end of a feeder to that of the next one.
fn add_tie(text: &mut Vec<u8>, feeder: u32) -> Result<(), AllocError>
    requires { feeder < 100 }
    ensures { OnOk result (text.new.items ≡ text.old.items ++ spec.tie_row feeder) }
{
    add_device(
        text,
        Part::Tie(feeder),
        b"tie",
        Part::Place(feeder, PLACES - 1),
        Part::Place(feeder + 1, PLACES - 1),
        b"open",
    )
}

/// The text of a network of so many feeders.
#[tactic(auto, unfolding(crate::specs::NetworkText::network_text))]
pub(crate) fn network_of(alloc: Global, feeders: u32) -> Result<Vec<u8>, AllocError>
    requires some { 1 ≤ feeders }
    requires few { feeders ≤ 100 }
    ensures { IfOk result (λ text. text.items ≡ network_text feeders) }
{
    let mut text = Vec::new(alloc);
    'feeders: for feeder in 0..feeders {
        add_feeder(&mut text, feeder)?;
    }
    'ties: for feeder in 0..feeders - 1 {
        add_tie(&mut text, feeder)?;
    }
    Ok(text)
}
