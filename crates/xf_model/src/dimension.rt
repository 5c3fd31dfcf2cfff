//! Which rows of numbers are selected, row by row and dimension by dimension.
ghost use Rattle.std.specs.Prelude.{◌≡◌, map, slice_get, IfOk};
ghost use Rattle.xf_model.specs.Dimension.{passes, passes_each, all_but, selected};
ghost use Rattle.xf_model.specs.Plain.{plain_filter, plain_dimension};

use std::alloc::{AllocError, Global};

/// A filter: the numbers from `low` on that are below `high`. Where `low` is not below `high` there are none.
#[derive(Clone, Copy, Debug, PartialEq, Eq)]
pub struct PlainRange {
    pub low: i64,
    pub high: i64,
}

/// A dimension of rows of numbers: the number in one column is a row's only key, and a row that is too short has none.
/// Without a range every row passes, also one without a key.
#[derive(Clone, Copy, Debug, PartialEq, Eq)]
pub struct PlainDimension {
    pub column: usize,
    pub range: Option<PlainRange>,
}

/// The number in a column, or None where the row is too short.
pub(crate) fn key_of(column: usize, row: &[i64]) -> Option<i64>
    ensures { result ≡ slice_get row.now column }
{
    row.get(column).copied()
}

/// Whether a filter holds for a key.
pub(crate) fn holds(range: Option<PlainRange>, key: i64) -> bool
    ensures { result ≡ (plain_filter range).holds key }
{
    match range {
        None => true,
        Some(range) => range.low <= key && key < range.high,
    }
}

fn passes(dimension: PlainDimension, row: &[i64]) -> bool
    ensures { result ≡ passes (plain_dimension dimension) row.now }
{
    match key_of(dimension.column, row) {
        None => dimension.range.is_none(),
        Some(key) => holds(dimension.range, key),
    }
}

/// Whether a row passes every dimension.
pub fn passes_each(dimensions: &[PlainDimension], row: &[i64]) -> bool
    ensures { result ≡ passes_each (map plain_dimension dimensions.now) row.now }
{
    for dimension in dimensions {
        if !passes(*dimension, row) {
            return false;
        }
    }
    true
}

/// Whether a row passes every dimension but the one at a place.
pub(crate) fn passes_all_but(dimensions: &[PlainDimension], but: Option<usize>, row: &[i64]) -> bool
    ensures { result ≡ passes_each (all_but but (map plain_dimension dimensions.now)) row.now }
{
    match but {
        Some(place) if place < dimensions.len() => {
            passes_each(&dimensions[..place], row) && passes_each(&dimensions[place + 1..], row)
        }
        _ => passes_each(dimensions, row),
    }
}

/// The rows that pass every dimension but the one at the place `but`, in their order. A place after the last
/// dimension leaves none out.
pub fn selected<'a>(
    alloc: Global,
    dimensions: &[PlainDimension],
    but: Option<usize>,
    rows: &'a [Vec<i64>],
) -> Result<Vec<&'a Vec<i64>>, AllocError>
    ensures { IfOk result (λ found. map (λ row. row.now.items) found.items ≡ selected (map plain_dimension dimensions.now) but (map (λ row. row.items) rows.now)) }
{
    let mut found = Vec::new(alloc);
    for row in rows {
        if passes_all_but(dimensions, but, row.as_slice()) {
            found.push(row)?;
        }
    }
    Ok(found)
}
