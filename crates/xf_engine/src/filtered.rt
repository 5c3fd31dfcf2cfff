//! The places of the rows that pass dimensions, while some dimensions are ignored.
ghost use Rattle.std.specs.Prelude.{◌≡◌, ◌<◌, not, IfOk, find, flat_map};
ghost use Rattle.std.specs.List.{list_all, range_with_len};
ghost use Rattle.xf_engine.specs.Held.{HoldEach, held_ids};
ghost use Rattle.xf_engine.specs.Listing.{passes_unless, place_at};
ghost use Rattle.xf_engine.specs.State.{id_numbers, is_taken};

use crate::dimension::{Dimension, dimension_place, passes};
use crate::ids::DimensionId;
use std::alloc::Global;
use xf_base::OutOfMemory;
use xf_filter::Predicate;

/// Whether an id is ignored.
fn is_ignored(ignored: &[DimensionId], id: DimensionId) -> bool
    ensures { result ≡ is_taken (id_numbers ignored.now) id.0 }
{
    for own in ignored {
        if own.0 == id.0 {
            return true;
        }
    }
    false
}

/// Whether the row at a place passes each dimension that is not ignored.
fn passes_counted<A, P: Predicate>(
    dimensions: &[Dimension<A, P>],
    ignored: &[DimensionId],
    count: usize,
    place: usize,
) -> bool
    requires held { HoldEach count dimensions.now }
    requires place { place < count }
    ensures { result ≡ list_all (passes_unless P.says_to (id_numbers ignored.now) place) dimensions.now }
{
    for dimension in dimensions {
        if !is_ignored(ignored, dimension.id) && !passes(dimension, place) {
            return false;
        }
    }
    true
}

/// The places of the rows that pass each dimension that is not ignored, ascending.
pub fn filtered_places<A, P: Predicate>(
    alloc: Global,
    dimensions: &[Dimension<A, P>],
    ignored: &[DimensionId],
    count: usize,
) -> Result<Vec<usize>, OutOfMemory>
    requires { HoldEach count dimensions.now }
    ensures { IfOk result (λ places. places.items ≡ flat_map (place_at P.says_to dimensions.now (id_numbers ignored.now)) (range_with_len 0 count)) }
{
    let mut places = Vec::new(alloc);
    for place in 0..count {
        if passes_counted(dimensions, ignored, count, place) {
            places.push(place)?;
        }
    }
    Ok(places)
}

/// The number of the first of some ids that no dimension has.
pub fn first_missing<A, P>(dimensions: &[Dimension<A, P>], ids: &[DimensionId]) -> Option<u32>
    ensures { result ≡ find (λ id. not (is_taken (held_ids dimensions.now) id)) (id_numbers ids.now) }
{
    for id in ids {
        if dimension_place(dimensions, *id).is_none() {
            return Some(id.0);
        }
    }
    None
}
