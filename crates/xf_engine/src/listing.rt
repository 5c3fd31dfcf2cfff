//! The places of the rows with the least and the greatest keys of a dimension: the keys of the rows that pass are sorted,
//! each with the place of its row.
ghost use Rattle.std.specs.Prelude.{◌≡◌, ◌++◌, IfOk, OnOk, drop, filter, flat_map, length, map, reverse, take};
ghost use Rattle.std.specs.List.{AllByRecursion, range_with_len};
ghost use Rattle.std.specs.List.Sorted.{IsStrictlySortedBy};
ghost use Rattle.xf_base.specs.Key.{key_cmp};
ghost use Rattle.xf_engine.specs.Held.{HoldEach, HoldsKeysOf, live_dimension, live_dimensions};
ghost use Rattle.xf_engine.specs.Listing.{pairs_at, told};
ghost use Rattle.xf_engine.specs.State.{dimension_of, dimensions_of};
ghost use Rattle.xf_filter.specs.Filter.{filter_of};
ghost use Rattle.xf_model.specs.Bottom.{bottom, places_of, top};

use crate::dimension::{Dimension, passes_each};
use std::alloc::Global;
use xf_access::Accessor;
use xf_base::{Key, OutOfMemory, Row};
use xf_filter::{Filter, Predicate};

/// Puts the keys of a row for which a filter holds behind others, each with the row's place.
fn push_pairs<'a, P: Predicate>(
    pairs: &mut Vec<(&'a Key, usize)>,
    own: &Filter<P>,
    keys: &'a [Key],
    place: usize,
) -> Result<(), OutOfMemory>
    ensures { OnOk result (told pairs.new.items ≡ told pairs.old.items ++ map (λ key. (key, place)) (filter (filter_of P.says_to own.now).holds keys.now)) }
{
    for key in keys {
        if own.holds(key) {
            pairs.push((key, place))?;
        }
    }
    Ok(())
}

/// The keys for which a dimension's own filter holds, of the rows that pass each dimension, in order of the rows.
fn collect_pairs<'a, A, P: Predicate>(
    alloc: Global,
    dimensions: &[Dimension<A, P>],
    own: &'a Dimension<A, P>,
    count: usize,
) -> Result<Vec<(&'a Key, usize)>, OutOfMemory>
    requires held { HoldEach count dimensions.now }
    requires own { length own.now.keys ≡ count }
    ensures { IfOk result (λ pairs. told pairs.items ≡ flat_map (pairs_at P.says_to dimensions.now own.now) (range_with_len 0 count)) }
{
    let mut pairs = Vec::new(alloc);
    for place in 0..count {
        if passes_each(dimensions, count, place) {
            push_pairs(&mut pairs, &own.filter, own.keys.list(place), place)?;
        }
    }
    Ok(pairs)
}

/// The same, ascending by key and then by place.
fn sorted_pairs<'a, A: Accessor, P: Predicate>(
    alloc: Global,
    dimensions: &[Dimension<A, P>],
    own: &'a Dimension<A, P>,
    rows: &[Row],
) -> Result<Vec<(&'a Key, usize)>, OutOfMemory>
    requires keys { AllByRecursion (HoldsKeysOf A.keys_of rows.now) dimensions.now }
    requires own { HoldsKeysOf A.keys_of rows.now own.now }
    requires ascending { AllByRecursion (λ row. IsStrictlySortedBy key_cmp (A.keys_of own.now.accessor row)) rows.now }
    ensures { IfOk result (λ pairs. told pairs.items ≡ bottom key_cmp (dimensions_of A.keys_of P.says_to (live_dimensions dimensions.now)) (dimension_of A.keys_of P.says_to (live_dimension own.now)) rows.now) }
{
    let mut pairs = collect_pairs(alloc, dimensions, own, rows.len())?;
    pairs.sort_unstable();
    Ok(pairs)
}

/// The places of the first `k` pairs after the first `offset`.
fn first_places(
    alloc: Global,
    pairs: &[(&Key, usize)],
    k: usize,
    offset: usize,
) -> Result<Vec<usize>, OutOfMemory>
    ensures { IfOk result (λ v. v.items ≡ map (λ pair. pair.1) (take k (drop offset pairs.now))) }
{
    Ok(
        pairs
            .iter()
            .skip(offset)
            .take(k)
            .map(|pair| pair.1)
            .collect(alloc)?,
    )
}

/// The same from the last pair on, backwards.
fn last_places(
    alloc: Global,
    pairs: &[(&Key, usize)],
    k: usize,
    offset: usize,
) -> Result<Vec<usize>, OutOfMemory>
    ensures { IfOk result (λ v. v.items ≡ map (λ pair. pair.1) (take k (drop offset (reverse pairs.now)))) }
{
    Ok(
        pairs
            .iter()
            .rev()
            .skip(offset)
            .take(k)
            .map(|pair| pair.1)
            .collect(alloc)?,
    )
}

/// The places of the rows with the least keys of a dimension: the first `k` after the first `offset`.
pub fn bottom_places<A: Accessor, P: Predicate>(
    alloc: Global,
    dimensions: &[Dimension<A, P>],
    own: &Dimension<A, P>,
    rows: &[Row],
    k: usize,
    offset: usize,
) -> Result<Vec<usize>, OutOfMemory>
    requires keys { AllByRecursion (HoldsKeysOf A.keys_of rows.now) dimensions.now }
    requires own { HoldsKeysOf A.keys_of rows.now own.now }
    requires ascending { AllByRecursion (λ row. IsStrictlySortedBy key_cmp (A.keys_of own.now.accessor row)) rows.now }
    ensures { IfOk result (λ v. v.items ≡ places_of k offset (bottom key_cmp (dimensions_of A.keys_of P.says_to (live_dimensions dimensions.now)) (dimension_of A.keys_of P.says_to (live_dimension own.now)) rows.now)) }
{
    let pairs = sorted_pairs(alloc, dimensions, own, rows)?;
    first_places(alloc, &pairs, k, offset)
}

/// The places of the rows with the greatest keys of a dimension: the first `k` after the first `offset`.
pub fn top_places<A: Accessor, P: Predicate>(
    alloc: Global,
    dimensions: &[Dimension<A, P>],
    own: &Dimension<A, P>,
    rows: &[Row],
    k: usize,
    offset: usize,
) -> Result<Vec<usize>, OutOfMemory>
    requires keys { AllByRecursion (HoldsKeysOf A.keys_of rows.now) dimensions.now }
    requires own { HoldsKeysOf A.keys_of rows.now own.now }
    requires ascending { AllByRecursion (λ row. IsStrictlySortedBy key_cmp (A.keys_of own.now.accessor row)) rows.now }
    ensures { IfOk result (λ v. v.items ≡ places_of k offset (top key_cmp (dimensions_of A.keys_of P.says_to (live_dimensions dimensions.now)) (dimension_of A.keys_of P.says_to (live_dimension own.now)) rows.now)) }
{
    let pairs = sorted_pairs(alloc, dimensions, own, rows)?;
    last_places(alloc, &pairs, k, offset)
}
