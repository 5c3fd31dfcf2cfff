//! The number of a row in a column.
ghost use Rattle.std.specs.Prelude.{◌≡◌};
ghost use Rattle.xf_reduce.specs.Number.{fits_at, number_at};

use xf_base::{Cell, Column, ColumnKind, Row};

/// The number in the column at a place, which is 0 where the row has none.
pub fn number_at(row: &Row, place: usize) -> i64
    ensures { result ≡ number_at place row.now }
{
    match row.at(place) {
        Some(Cell::Num(number)) => *number,
        _ => 0,
    }
}

/// Whether the column at a place has whole numbers or decimals.
pub fn fits_at(columns: &[Column], place: usize) -> bool
    ensures { result ≡ fits_at place columns.now }
{
    match columns.get(place) {
        Some(column) => matches!(column.kind, ColumnKind::Int | ColumnKind::Fixed(_)),
        None => false,
    }
}
