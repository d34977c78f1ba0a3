//! The shapes of a line: its sort and its fields.
ghost use Rattle.std.specs.Prelude.{◌≡◌, [], map, option_map, slice_index_or};
ghost use Rattle.std.specs.List.{range_with_len};
ghost use Rattle.csv.specs.Records.{fields_of};
ghost use Rattle.grid_reader.specs.Shapes.{shape_of_fields};
ghost use Rattle.grid_reader.specs.ShapeView.{shape_view};

use crate::words::state_named;
use csv::ByteRecord;

/// A line by its sort, with the texts of its fields.
#[derive(Clone, Copy)]
pub(crate) enum Shape<'a> {
    Source {
        node: &'a [u8],
    },
    Device {
        name: &'a [u8],
        kind: &'a [u8],
        from: &'a [u8],
        to: &'a [u8],
        is_closed: bool,
        weight: &'a [u8],
    },
    Meter {
        name: &'a [u8],
        node: &'a [u8],
        customers: &'a [u8],
    },
    Setting {
        setting: &'a [u8],
        value: &'a [u8],
    },
}

// source,NODE
fn source_shape<'a>(fields: [&'a [u8]; 2]) -> Option<Shape<'a>>
    ensures { option_map shape_view result ≡ shape_of_fields (map (λ f. f.now) fields.entry) }
{
    let [word, node] = fields;
    (word == b"source".as_slice()).then_some(Shape::Source { node })
}

// set,SETTING,VALUE
fn setting_shape<'a>(fields: [&'a [u8]; 3]) -> Option<Shape<'a>>
    ensures { option_map shape_view result ≡ shape_of_fields (map (λ f. f.now) fields.entry) }
{
    let [word, setting, value] = fields;
    (word == b"set".as_slice()).then_some(Shape::Setting { setting, value })
}

// meter,NAME,NODE,CUSTOMERS
fn meter_shape<'a>(fields: [&'a [u8]; 4]) -> Option<Shape<'a>>
    ensures { option_map shape_view result ≡ shape_of_fields (map (λ f. f.now) fields.entry) }
{
    let [word, name, node, customers] = fields;
    (word == b"meter".as_slice()).then_some(Shape::Meter {
        name,
        node,
        customers,
    })
}

// device,NAME,KIND,FROM,TO,STATE,WEIGHT
fn device_shape<'a>(fields: [&'a [u8]; 7]) -> Option<Shape<'a>>
    ensures { option_map shape_view result ≡ shape_of_fields (map (λ f. f.now) fields.entry) }
{
    let [word, name, kind, from, to, state, weight] = fields;
    if word != b"device".as_slice() {
        return None;
    }
    let is_closed = state_named(state)?;
    Some(Shape::Device {
        name,
        kind,
        from,
        to,
        is_closed,
        weight,
    })
}

// The first seven fields of a row, and empty texts where it has fewer.
fn first_fields(row: &ByteRecord) -> [&[u8]; 7]
    ensures { map (λ f. f.now) result ≡ map (λ k. slice_index_or (fields_of row.now) k []) (range_with_len 0 7) }
{
    let mut fields = [b"".as_slice(); 7];
    for i in 0..7 {
        fields[i] = row.get(i).unwrap_or(b"");
    }
    fields
}

/// The shape of the fields of a row; none exactly where they have no shape.
pub(crate) fn shape_of(row: &ByteRecord) -> Option<Shape<'_>>
    ensures { option_map shape_view result ≡ shape_of_fields (fields_of row.now) }
{
    let [a, b, c, d, e, f, g] = first_fields(row);
    match row.len() {
        2 => source_shape([a, b]),
        3 => setting_shape([a, b, c]),
        4 => meter_shape([a, b, c, d]),
        7 => device_shape([a, b, c, d, e, f, g]),
        _ => None,
    }
}
