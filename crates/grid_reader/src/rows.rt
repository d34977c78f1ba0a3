//! Reading the rows of a network text, each by itself.
ghost use Rattle.std.specs.Prelude.{◌≡◌, ◌≢◌, ℕ, List, Some, Ok, Err, if◌then◌else◌};
ghost use Rattle.grid_model.specs.Name.{is_name};
ghost use Rattle.csv.specs.Records.{fields_of};
ghost use Rattle.grid_reader.specs.Shapes.{shape_of_fields};
ghost use Rattle.grid_reader.specs.Rows as rows;
ghost use Rattle.grid_reader.specs.Words as words;
ghost use Rattle.grid_reader.specs.ShapeView.{shape_view};
ghost use Rattle.grid_reader.specs.RowResult.{as_result};
ghost use Rattle.line_text.specs.LineSorts.{IsTold};
ghost use Rattle.line_text.specs.declared.sorts.LineSort.TheVariants as of_sort;

use crate::fault::GridRule;
use crate::row::{DeviceRow, MeterRow, Row, SettingRow};
use crate::shapes::{Shape, shape_of};
use crate::words::{kind_named, read_amount, setting_named, value_of, weight_of};
use csv::ByteRecord;
use grid_model::Name;
use line_text::LineSort;

fn read_name(text: &[u8]) -> Result<Name, GridRule>
    ensures { result ≡ (if is_name text.now then Ok text.now else Err GridRule.BadName) }
{
    Name::read(text).ok_or(GridRule::BadName)
}

fn source_row(node: &[u8]) -> Result<Row, GridRule>
    ensures { result ≡ as_result (rows.source_row node.now) }
{
    Ok(Row::Source(read_name(node)?))
}

fn device_row(
    name: &[u8],
    kind: &[u8],
    from: &[u8],
    to: &[u8],
    starts_closed: bool,
    weight: &[u8],
) -> Result<Row, GridRule>
    ensures { result ≡ as_result (rows.device_row name.now kind.now from.now to.now starts_closed weight.now) }
{
    let name = read_name(name)?;
    let from = read_name(from)?;
    let to = read_name(to)?;
    let kind = kind_named(kind).ok_or(GridRule::UnknownKind)?;
    let weight = weight_of(kind, weight).ok_or(GridRule::BadNumber)?;
    if from == to {
        return Err(GridRule::SameEnds);
    }
    Ok(Row::Device(DeviceRow {
        name,
        kind,
        from,
        to,
        starts_closed,
        weight,
    }))
}

fn meter_row(name: &[u8], node: &[u8], customers: &[u8]) -> Result<Row, GridRule>
    ensures { result ≡ as_result (rows.meter_row name.now node.now customers.now) }
{
    Ok(Row::Meter(MeterRow {
        name: read_name(name)?,
        node: read_name(node)?,
        customers: read_amount(customers).ok_or(GridRule::BadNumber)?,
    }))
}

fn setting_row(setting: &[u8], value: &[u8]) -> Result<Row, GridRule>
    ensures { result ≡ as_result (rows.setting_row (words.setting_named setting.now) value.now) }
{
    let setting = setting_named(setting).ok_or(GridRule::UnknownSetting)?;
    let value = value_of(setting, value).ok_or(GridRule::BadNumber)?;
    Ok(Row::Setting(SettingRow { setting, value }))
}

fn row_of_shape(shape: Shape<'_>) -> Result<Row, GridRule>
    ensures { result ≡ as_result (rows.row_of_shape (Some (shape_view shape.entry))) }
{
    match shape {
        Shape::Source { node } => source_row(node),
        Shape::Device {
            name,
            kind,
            from,
            to,
            is_closed,
            weight,
        } => device_row(name, kind, from, to, is_closed, weight),
        Shape::Meter {
            name,
            node,
            customers,
        } => meter_row(name, node, customers),
        Shape::Setting { setting, value } => setting_row(setting, value),
    }
}

// The row of the fields of a line.
fn row_of_fields(fields: &ByteRecord) -> Result<Row, GridRule>
    ensures { result ≡ as_result (rows.row_of_shape (shape_of_fields (fields_of fields.now))) }
{
    match shape_of(fields) {
        Some(shape) => row_of_shape(shape),
        None => Err(GridRule::BadRow),
    }
}

/// The row of a line that isn't skipped, of which this is told, or the first rule that it breaks
/// whatever rows stand before it.
pub(crate) fn row_of_line(sort: LineSort, fields: &ByteRecord) -> Result<Row, GridRule>
    requires { sort ≢ of_sort.Skipped }
    ensures { (line : List ℕ) → IsTold sort (fields_of fields.now) line → result ≡ as_result (rows.row_of line) }
{
    match sort {
        LineSort::Row => row_of_fields(fields),
        _ => Err(GridRule::BadRow),
    }
}
