//! The keys that dimensions hold of each row: an entry for each.
ghost use Rattle.std.specs.Prelude.{◌≡◌, ◌≤◌, ◌++◌, IfOk, OnOk, length, map, sum_by, take};
ghost use Rattle.xf_base.specs.declared.limits.TheConstants.Limits.{DIMENSIONS};
ghost use Rattle.xf_engine.specs.Held.{HoldEach, held_count, kept_keys, retained_keys, with_keys_of};

use crate::dimension::Dimension;
use std::alloc::Global;
use xf_access::Accessor;
use xf_base::{Gone, Key, OutOfMemory, Row};
use xf_lists::Lists;

/// How many keys the dimensions hold together.
pub fn entry_count<A, P>(dimensions: &[Dimension<A, P>]) -> u64
    requires few { length dimensions.now ≤ DIMENSIONS }
    ensures { result ≡ sum_by held_count dimensions.now }
{
    let mut count = 0;
    for dimension in dimensions {
        count += dimension.keys.item_count() as u64;
    }
    count
}

/// Puts the keys of more rows after those of `count` rows, in each dimension. Without memory for them some may stand there.
pub fn add_keys<A: Accessor, P>(
    alloc: Global,
    dimensions: &mut [Dimension<A, P>],
    count: usize,
    rows: &[Row],
) -> Result<(), OutOfMemory>
    requires { HoldEach count dimensions.old }
    ensures ok { OnOk result (dimensions.new ≡ map (with_keys_of A.keys_of rows.now) dimensions.old) }
    ensures kept { map (kept_keys count) dimensions.new ≡ dimensions.old }
{
    for place in 0..dimensions.len() {
        let dimension = &mut dimensions[place];
        push_keys(alloc, &dimension.accessor, &mut dimension.keys, rows)?;
    }
    Ok(())
}

/// Keeps the keys of the first `count` rows in each dimension.
pub fn keep_keys<A, P>(dimensions: &mut [Dimension<A, P>], count: usize)
    ensures { dimensions.new ≡ map (kept_keys count) dimensions.old }
{
    for place in 0..dimensions.len() {
        let dimension = &mut dimensions[place];
        dimension.keys.truncate(count);
    }
}

/// Keeps the keys of the rows that are not gone in each dimension.
pub fn retain_keys<A, P>(dimensions: &mut [Dimension<A, P>], gone: &Gone)
    requires { HoldEach (length gone.now) dimensions.old }
    ensures { dimensions.new ≡ map (retained_keys gone.now) dimensions.old }
{
    for place in 0..dimensions.len() {
        let dimension = &mut dimensions[place];
        dimension.keys.retain(gone);
    }
}

/// The keys of each row.
pub fn keys_of_rows<A: Accessor>(
    alloc: Global,
    accessor: &A,
    rows: &[Row],
) -> Result<Lists<Key>, OutOfMemory>
    ensures { IfOk result (λ keys. keys ≡ map (A.keys_of accessor.now) rows.now) }
{
    let mut keys = Lists::new(alloc);
    push_keys(alloc, accessor, &mut keys, rows)?;
    Ok(keys)
}

/// Puts the keys of each row at the end. Without memory for all, those of some may stand there.
fn push_keys<A: Accessor>(
    alloc: Global,
    accessor: &A,
    keys: &mut Lists<Key>,
    rows: &[Row],
) -> Result<(), OutOfMemory>
    ensures ok { OnOk result (keys.new ≡ keys.old ++ map (A.keys_of accessor.now) rows.now) }
    ensures kept { take (length keys.old) keys.new ≡ keys.old }
{
    for row in rows {
        let mut own = accessor.keys(alloc, row)?.into_vec();
        keys.push(&mut own)?;
    }
    Ok(())
}
