//! Groups and wholes of rows of numbers: what is counted, key by key and over all.
ghost use Rattle.std.specs.Prelude.{◌≡◌, ◌<◌, ◌++◌, Some, length, slice_get, filter, flat_map, map, IfOk, OnOk};
ghost use Rattle.std.specs.Ordering.{int_cmp};
ghost use Rattle.xf_model.specs.Dimension.{selected};
ghost use Rattle.xf_model.specs.Group.{distinct_keys, count, fold_of, group_entries, has_key, whole_value};
ghost use Rattle.xf_model.specs.Plain.{column_keys, keys_of, key_and_number, plain_dimension};

use crate::ascending::insert_key;
use crate::dimension::{PlainDimension, key_of, passes_all_but, passes_each};
use std::alloc::{AllocError, Global};

/// An entry of a group: a key, and how many rows are counted for it.
#[derive(Clone, Copy, Debug, PartialEq, Eq)]
pub struct PlainEntry {
    pub key: i64,
    pub number: u64,
}

/// The distinct numbers of a list, ascending.
pub fn distinct_keys(alloc: Global, keys: &[i64]) -> Result<Vec<i64>, AllocError>
    ensures { IfOk result (λ found. found.items ≡ distinct_keys int_cmp keys.now) }
{
    let mut found = Vec::new(alloc);
    for key in keys {
        insert_key(&mut found, *key)?;
    }
    Ok(found)
}

fn push_key(found: &mut Vec<i64>, column: usize, row: &[i64]) -> Result<(), AllocError>
    ensures { OnOk result (found.new.items ≡ found.old.items ++ column_keys column row.now) }
{
    match key_of(column, row) {
        None => Ok(()),
        Some(key) => Ok(found.push(key)?),
    }
}

/// The numbers in a column, of the rows that are long enough.
fn column_numbers(alloc: Global, column: usize, rows: &[Vec<i64>]) -> Result<Vec<i64>, AllocError>
    ensures { IfOk result (λ found. found.items ≡ flat_map (column_keys column) (map (λ row. row.items) rows.now)) }
{
    let mut found = Vec::new(alloc);
    for row in rows {
        push_key(&mut found, column, row.as_slice())?;
    }
    Ok(found)
}

fn has_key(column: usize, key: i64, row: &[i64]) -> bool
    ensures { result ≡ has_key int_cmp (column_keys column) key row.now }
{
    match key_of(column, row) {
        None => false,
        Some(own) => key == own,
    }
}

/// How many rows have a key in a column and pass every dimension but the one at the place `own`.
fn number_with(
    dimensions: &[PlainDimension],
    own: usize,
    column: usize,
    key: i64,
    rows: &[Vec<i64>],
) -> u64
    ensures { result ≡ fold_of count (filter (has_key int_cmp (column_keys column) key) (selected (map plain_dimension dimensions.now) (Some own) (map (λ row. row.items) rows.now))) }
{
    let mut number: u64 = 0;
    for row in rows {
        if passes_all_but(dimensions, Some(own), row.as_slice())
            && has_key(column, key, row.as_slice())
        {
            number += 1;
        }
    }
    number
}

fn entry_of(
    dimensions: &[PlainDimension],
    own: usize,
    column: usize,
    key: i64,
    rows: &[Vec<i64>],
) -> PlainEntry
    ensures { key_and_number result ≡ (key, fold_of count (filter (has_key int_cmp (column_keys column) key) (selected (map plain_dimension dimensions.now) (Some own) (map (λ row. row.items) rows.now)))) }
{
    PlainEntry {
        key,
        number: number_with(dimensions, own, column, key, rows),
    }
}

/// The entries of the group of the dimension at the place `own`, ascending by key: for each key of the rows how many
/// rows have it and pass every other dimension. A key that no such row has stays, with 0.
pub fn group_entries(
    alloc: Global,
    dimensions: &[PlainDimension],
    own: usize,
    rows: &[Vec<i64>],
) -> Result<Vec<PlainEntry>, AllocError>
    requires { own < length dimensions.now }
    ensures { IfOk result (λ entries. map key_and_number entries.items ≡ group_entries int_cmp (keys_of (slice_get dimensions.now own)) count (map plain_dimension dimensions.now) own (map (λ row. row.items) rows.now)) }
{
    let column = dimensions[own].column;
    let numbers = column_numbers(alloc, column, rows)?;
    let keys = distinct_keys(alloc, numbers.as_slice())?;
    let mut entries = Vec::new(alloc);
    for key in keys.as_slice() {
        entries.push(entry_of(dimensions, own, column, *key, rows))?;
    }
    Ok(entries)
}

/// How many rows pass every dimension.
pub fn whole_count(dimensions: &[PlainDimension], rows: &[Vec<i64>]) -> u64
    ensures { result ≡ whole_value count (map plain_dimension dimensions.now) (map (λ row. row.items) rows.now) }
{
    let mut number: u64 = 0;
    for row in rows {
        if passes_each(dimensions, row.as_slice()) {
            number += 1;
        }
    }
    number
}
