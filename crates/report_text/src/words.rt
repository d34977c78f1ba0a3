//! The words of a report's rows.
ghost use Rattle.std.specs.Prelude.{◌≡◌, ◌<◌, length, option_map, IfOk, IfSome, codes};
ghost use Rattle.history_rules.specs.Report.{device_word, second_word, sort_word};
ghost use Rattle.report_text.specs.Rows.{IsWritable, text_or, value_text};

use grid_model::{DeviceId, Grid, Name, Stamp};
use history_rules::stamp_text_is_read;
use line_text::{Fraction, put_fraction, put_stamp, stamp_has_one_spelling};
use std::alloc::{AllocError, Global};

/// The text of a second.
pub(crate) fn second_text(at: Stamp) -> [u8; 20]
    requires { IsWritable at }
    ensures { result ≡ second_word at }
{
    stamp_text_is_read();
    stamp_has_one_spelling();
    put_stamp(at)
}

/// The text of a second, where there is one.
pub(crate) fn second_of(at: Option<Stamp>) -> Option<[u8; 20]>
    requires { IfSome at IsWritable }
    ensures { result ≡ option_map second_word at }
{
    match at {
        Some(at) => Some(second_text(at)),
        None => None,
    }
}

/// The text of a second, or a word where there is none.
pub(crate) fn second_or<'a>(second: &'a Option<[u8; 20]>, other: &'a [u8]) -> &'a [u8]
    ensures { result.now ≡ text_or second.now other.now }
{
    match second {
        Some(text) => text,
        None => other,
    }
}

/// The name of a device, where there is one.
pub(crate) fn name_of(grid: &Grid, device: Option<DeviceId>) -> Option<Name>
    requires { IfSome device (λ d. d.0 < length grid.now.devices) }
    ensures { result ≡ option_map (λ d. device_word grid.now d.0) device }
{
    match device {
        Some(device) => Some(grid.device(device).name),
        None => None,
    }
}

/// A name, or `none`.
pub(crate) fn name_or_none(name: &Option<Name>) -> &[u8]
    ensures { result.now ≡ text_or name.now (codes "none") }
{
    match name {
        Some(name) => name.text(),
        None => b"none",
    }
}

/// The word of an outage inside another, or of any other.
pub(crate) fn sort_of<'a>(nested: bool) -> &'a [u8]
    ensures { result.now ≡ sort_word nested }
{
    if nested { b"nested" } else { b"plain" }
}

/// The value of an index, or `none`.
pub(crate) fn value_of(alloc: Global, value: Option<Fraction>) -> Result<Vec<u8>, AllocError>
    ensures { IfOk result (λ text. text.items ≡ value_text value) }
{
    match value {
        Some(fraction) => put_fraction(alloc, fraction),
        None => Vec::from_slice(alloc, b"none"),
    }
}
