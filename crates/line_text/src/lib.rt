//! Lines, fields, decimals and times of a text.
#![tactic(auto)]

mod block;
mod block_reader;
mod commas;
mod cuts;
mod cutter;
mod decimals;
mod fractions;
mod laws;
mod lines;
mod pieces;
mod row_fields;
mod rows;
mod sorts;
mod stamps;

pub use block::LineBlock;
pub use block_reader::BlockReader;
pub use commas::Fields;
pub use cuts::cut_at;
pub use cutter::{Cut, LineCutter};
pub use decimals::{put_decimal, read_decimal};
pub use fractions::{Fraction, fractions_are_lowest, put_fraction};
pub use laws::{
    decimal_has_one_spelling, decimal_is_read, lines_from_parts, stamp_has_one_spelling,
};
pub use lines::{MOST_LINE, is_skipped_line, next_line};
pub use row_fields::RowFields;
pub use rows::{FieldsFault, fields};
pub use sorts::LineSort;
pub use stamps::{put_stamp, read_stamp};
