//! Which rows of numbers have the least and the greatest numbers of a column.
ghost use Rattle.std.specs.Prelude.{◌≡◌, ◌++◌, drop, map, take, option_to_list, IfOk, OnOk};
ghost use Rattle.std.specs.Ordering.{int_cmp};
ghost use Rattle.xf_model.specs.Bottom.{bottom, pair_cmp, pairs_of, places_of, row_pairs, top};
ghost use Rattle.xf_model.specs.Group.{distinct_keys};
ghost use Rattle.xf_model.specs.Plain.{plain_dimension};

use crate::ascending::insert_key;
use crate::dimension::{PlainDimension, holds, key_of, passes_each};
use std::alloc::{AllocError, Global};

/// The number of a row in the own dimension's column with the row's place, if the row passes every dimension and the
/// own dimension's filter holds for the number.
fn pair_of(
    dimensions: &[PlainDimension],
    own: PlainDimension,
    place: usize,
    row: &[i64],
) -> Option<(i64, usize)>
    ensures { option_to_list result ≡ row_pairs (map plain_dimension dimensions.now) (plain_dimension own) (place, row.now) }
{
    if !passes_each(dimensions, row) {
        return None;
    }
    let key = key_of(own.column, row)?;
    if holds(own.range, key) {
        Some((key, place))
    } else {
        None
    }
}

fn push_pair(
    found: &mut Vec<(i64, usize)>,
    dimensions: &[PlainDimension],
    own: PlainDimension,
    place: usize,
    row: &[i64],
) -> Result<(), AllocError>
    ensures { OnOk result (found.new.items ≡ found.old.items ++ row_pairs (map plain_dimension dimensions.now) (plain_dimension own) (place, row.now)) }
{
    match pair_of(dimensions, own, place, row) {
        None => Ok(()),
        Some(pair) => Ok(found.push(pair)?),
    }
}

/// The pairs of all rows, row by row.
fn pairs_of(
    alloc: Global,
    dimensions: &[PlainDimension],
    own: PlainDimension,
    rows: &[Vec<i64>],
) -> Result<Vec<(i64, usize)>, AllocError>
    ensures { IfOk result (λ found. found.items ≡ pairs_of (map plain_dimension dimensions.now) (plain_dimension own) (map (λ row. row.items) rows.now)) }
{
    let mut found = Vec::new(alloc);
    for (place, row) in rows.iter().enumerate() {
        push_pair(&mut found, dimensions, own, place, row.as_slice())?;
    }
    Ok(found)
}

/// The distinct pairs of a list, ascending by number and then by place.
fn ascending_pairs(alloc: Global, pairs: &[(i64, usize)]) -> Result<Vec<(i64, usize)>, AllocError>
    ensures { IfOk result (λ found. found.items ≡ distinct_keys (pair_cmp int_cmp) pairs.now) }
{
    let mut found = Vec::new(alloc);
    for pair in pairs {
        insert_key(&mut found, *pair)?;
    }
    Ok(found)
}

fn bottom_pairs(
    alloc: Global,
    dimensions: &[PlainDimension],
    own: PlainDimension,
    rows: &[Vec<i64>],
) -> Result<Vec<(i64, usize)>, AllocError>
    ensures { IfOk result (λ pairs. pairs.items ≡ bottom int_cmp (map plain_dimension dimensions.now) (plain_dimension own) (map (λ row. row.items) rows.now)) }
{
    let pairs = pairs_of(alloc, dimensions, own, rows)?;
    ascending_pairs(alloc, pairs.as_slice())
}

/// The places of the first `k` pairs after the first `offset`.
fn places_of(
    alloc: Global,
    k: usize,
    offset: usize,
    pairs: &[(i64, usize)],
) -> Result<Vec<usize>, AllocError>
    ensures { IfOk result (λ places. places.items ≡ places_of k offset pairs.now) }
{
    pairs
        .iter()
        .skip(offset)
        .take(k)
        .map(|pair| pair.1)
        .collect(alloc)
}

/// The places of the rows that have the least numbers in the own dimension's column, least first and equal ones by
/// place: `k` of them after the first `offset`, or as many as there are. A row counts where it passes every dimension
/// and the own dimension's filter holds for its number.
pub fn plain_bottom(
    alloc: Global,
    dimensions: &[PlainDimension],
    own: PlainDimension,
    k: usize,
    offset: usize,
    rows: &[Vec<i64>],
) -> Result<Vec<usize>, AllocError>
    ensures { IfOk result (λ places. places.items ≡ places_of k offset (bottom int_cmp (map plain_dimension dimensions.now) (plain_dimension own) (map (λ row. row.items) rows.now))) }
{
    let pairs = bottom_pairs(alloc, dimensions, own, rows)?;
    places_of(alloc, k, offset, pairs.as_slice())
}

/// The places of the rows that have the greatest numbers, greatest first and equal ones from the last place back.
pub fn plain_top(
    alloc: Global,
    dimensions: &[PlainDimension],
    own: PlainDimension,
    k: usize,
    offset: usize,
    rows: &[Vec<i64>],
) -> Result<Vec<usize>, AllocError>
    ensures { IfOk result (λ places. places.items ≡ places_of k offset (top int_cmp (map plain_dimension dimensions.now) (plain_dimension own) (map (λ row. row.items) rows.now))) }
{
    let mut pairs = bottom_pairs(alloc, dimensions, own, rows)?;
    pairs.reverse();
    places_of(alloc, k, offset, pairs.as_slice())
}
