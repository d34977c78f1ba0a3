//! The rows of the texts.
ghost use Rattle.std.specs.Prelude.{◌≡◌, ◌++◌, ◌∷◌, [], OnOk, codes, decimal};
ghost use Rattle.event_rules.specs.Rows.{row};
ghost use Rattle.grid_maker.specs.NetworkText.{device_row};
ghost use Rattle.grid_maker.specs.Spelled.{spelled};

use crate::names::{Part, put_name};
use line_text::put_decimal;
use std::alloc::AllocError;

/// A comma and a word.
pub(crate) fn add_word(text: &mut Vec<u8>, word: &[u8]) -> Result<(), AllocError>
    ensures { OnOk result (text.new.items ≡ text.old.items ++ 44 ∷ word.now) }
{
    text.push(b',')?;
    text.extend_from_slice(word)
}

/// A comma and the name of a part.
pub(crate) fn add_name(text: &mut Vec<u8>, part: Part) -> Result<(), AllocError>
    ensures { OnOk result (text.new.items ≡ text.old.items ++ 44 ∷ spelled part) }
{
    text.push(b',')?;
    put_name(text, part)
}

/// The end of a row.
pub(crate) fn end_row(text: &mut Vec<u8>) -> Result<(), AllocError>
    ensures { OnOk result (text.new.items ≡ text.old.items ++ 10 ∷ []) }
{
    text.push(b'\n')?;
    Ok(())
}

/// source,NAME
pub(crate) fn add_source(text: &mut Vec<u8>, source: Part) -> Result<(), AllocError>
    ensures { OnOk result (text.new.items ≡ text.old.items ++ row (codes "source" ∷ spelled source ∷ [])) }
{
    text.extend_from_slice(b"source")?;
    add_name(text, source)?;
    end_row(text)
}

/// device,NAME,KIND,FROM,TO,STATE,-
pub(crate) fn add_device(
    text: &mut Vec<u8>,
    name: Part,
    kind: &[u8],
    from: Part,
    to: Part,
    state: &[u8],
) -> Result<(), AllocError>
    ensures { OnOk result (text.new.items ≡ text.old.items ++ device_row (spelled name) kind.now (spelled from) (spelled to) state.now) }
{
    text.extend_from_slice(b"device")?;
    add_name(text, name)?;
    add_word(text, kind)?;
    add_name(text, from)?;
    add_name(text, to)?;
    add_word(text, state)?;
    add_word(text, b"-")?;
    end_row(text)
}

/// meter,NAME,NODE,CUSTOMERS
pub(crate) fn add_meter(
    text: &mut Vec<u8>,
    name: Part,
    node: Part,
    customers: u32,
) -> Result<(), AllocError>
    ensures { OnOk result (text.new.items ≡ text.old.items ++ row (codes "meter" ∷ spelled name ∷ spelled node ∷ decimal customers ∷ [])) }
{
    text.extend_from_slice(b"meter")?;
    add_name(text, name)?;
    add_name(text, node)?;
    text.push(b',')?;
    put_decimal(text, u64::from(customers))?;
    end_row(text)
}
