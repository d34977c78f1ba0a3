//! The fields of a line, read by `csv`.
ghost use Rattle.std.specs.Prelude.{◌≡◌, ◌↔◌, [], true, nat_eq, IfOk, IfSome, IsErrOf, option_map};
ghost use Rattle.std.specs.List.{list_any};
ghost use Rattle.csv.specs.Machine.{next_record};
ghost use Rattle.csv.specs.Reading.{default_config, strip_bom};
ghost use Rattle.csv.specs.Records.{fields_of};
ghost use Rattle.csv.specs.declared.parser.State.TheVariants as state;
ghost use Rattle.event_rules.specs.Fields.{between_commas, begins_with_mark, is_barred, has_no_fields};

use csv::{ByteRecord, ReaderBuilder};
use std::alloc::Global;

/// Why a line gives no fields.
#[derive(Clone, Copy, Debug, PartialEq, Eq)]
pub enum FieldsFault {
    /// The line is empty, begins with a byte order mark, or holds a double quote, a CR or an LF.
    Bad,
    /// Memory is wanting.
    Memory,
}

// Whether a double quote, a CR or an LF is there.
fn holds_barred_byte(line: &[u8]) -> bool
    ensures { result ≡ list_any is_barred line.now }
{
    line.iter()
        .any(|b| *b == b'"' || (*b == b'\r' || *b == b'\n'))
}

fn begins_with_byte_order_mark(line: &[u8]) -> bool
    ensures { result ≡ begins_with_mark line.now }
{
    line.starts_with(&[0xEF, 0xBB, 0xBF])
}

/// Whether a line has no fields: it is empty, begins with a byte order mark, or holds a double quote,
/// a CR or an LF.
pub(crate) fn is_bare_line(line: &[u8]) -> bool
    ensures { result ≡ has_no_fields line.now }
{
    line.is_empty() || begins_with_byte_order_mark(line) || holds_barred_byte(line)
}

// The first record of a text, if it has one; none where memory was wanting.
fn first_record(alloc: Global, text: &[u8]) -> Option<Option<ByteRecord>>
    ensures { IfSome result (λ row. option_map fields_of row ≡ option_map (λ read. read.0) (next_record default_config state.StartRecord [] [] (strip_bom text.now))) }
{
    let mut reader = ReaderBuilder::new()
        .has_headers(false)
        .from_reader(alloc, text);
    let mut row = ByteRecord::new(alloc);
    match reader.read_byte_record(&mut row) {
        Ok(true) => Some(Some(row)),
        Ok(false) => Some(None),
        Err(_) => None,
    }
}

/// The fields of a line: what stands between its commas. They are read as bytes from a line in
/// memory, which is one record if it isn't `Bad`, so that want of memory is the only other fault.
pub fn fields(alloc: Global, line: &[u8]) -> Result<ByteRecord, FieldsFault>
    ensures bad { IsErrOf result FieldsFault.Bad ↔ (has_no_fields line.now ≡ true) }
    ensures value { IfOk result (λ row. fields_of row ≡ between_commas line.now) }
{
    if is_bare_line(line) {
        return Err(FieldsFault::Bad);
    }
    match first_record(alloc, line) {
        Some(Some(row)) => Ok(row),
        _ => Err(FieldsFault::Memory),
    }
}
