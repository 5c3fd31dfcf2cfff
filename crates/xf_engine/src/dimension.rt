//! A live dimension: its accessor, the filter that is set on it, and the keys of every row.
ghost use Rattle.std.specs.Prelude.{◌≡◌, ◌+◌, ◌<◌, ◌≤◌, ◌^◌, length, position, remove};
ghost use Rattle.std.specs.List.{list_any};
ghost use Rattle.xf_engine.specs.Held.{HoldEach, held_ids, held_moved, keys_pass, live_dimensions, most_moved, passes_at, passes_each_at};
ghost use Rattle.xf_engine.specs.State.{IsFreeId, has_id};
ghost use Rattle.xf_filter.specs.Filter.{filter_of};

use crate::counts::moved_count;
use crate::ids::DimensionId;
use xf_base::Key;
use xf_filter::{Filter, Predicate};
use xf_lists::Lists;

/// A live dimension. Its keys are asked of the accessor once for each row.
#[derive(Drop)]
pub struct Dimension<A, P> {
    pub id: DimensionId,
    pub accessor: A,
    pub filter: Filter<P>,
    pub keys: Lists<Key>,
}

impl<A, P: Predicate> Dimension<A, P> {
    /// Sets a filter in place of the one that is set, and tells how much that moves.
    pub fn refilter(&mut self, new: Filter<P>) -> u64
        requires few { most_moved self.old < 2 ^ 64 }
        ensures moved { result ≡ held_moved P.says_to new self.old }
        ensures few { result ≤ most_moved self.old }
        ensures filter { self.new ≡ record self.old { filter = new } }
    {
        let moved = moved_count(&self.keys, &self.filter, &new);
        self.filter = new;
        moved
    }
}

/// Whether a filter holds for one of some keys.
fn holds_any<P: Predicate>(filter: &Filter<P>, keys: &[Key]) -> bool
    ensures { result ≡ list_any (filter_of P.says_to filter.now).holds keys.now }
{
    keys.iter().any(|key| filter.holds(key))
}

/// Whether the keys of a row pass a filter.
pub fn keys_pass<P: Predicate>(filter: &Filter<P>, keys: &[Key]) -> bool
    ensures { result ≡ keys_pass P.says_to filter.now keys.now }
{
    filter.is_all() || holds_any(filter, keys)
}

/// Whether the row at a place passes a dimension.
pub fn passes<A, P: Predicate>(dimension: &Dimension<A, P>, place: usize) -> bool
    requires { place < length dimension.now.keys }
    ensures { result ≡ passes_at P.says_to place dimension.now }
{
    dimension.filter.is_all() || holds_any(&dimension.filter, dimension.keys.list(place))
}

/// Whether the row at a place passes each dimension.
pub fn passes_each<A, P: Predicate>(
    dimensions: &[Dimension<A, P>],
    count: usize,
    place: usize,
) -> bool
    requires held { HoldEach count dimensions.now }
    requires place { place < count }
    ensures { result ≡ passes_each_at P.says_to dimensions.now place }
{
    for dimension in dimensions {
        if !passes(dimension, place) {
            return false;
        }
    }
    true
}

/// Whether the row at a place passes each dimension but one.
pub fn passes_others<A, P: Predicate>(
    dimensions: &[Dimension<A, P>],
    count: usize,
    but: usize,
    place: usize,
) -> bool
    requires held { HoldEach count dimensions.now }
    requires but { but < length dimensions.now }
    requires place { place < count }
    ensures { result ≡ passes_each_at P.says_to (remove dimensions.now but) place }
{
    passes_each(&dimensions[..but], count, place)
        && passes_each(&dimensions[but + 1..], count, place)
}

/// The place of the dimension of an id.
pub fn dimension_place<A, P>(dimensions: &[Dimension<A, P>], id: DimensionId) -> Option<usize>
    ensures { result ≡ position (has_id id.0) (live_dimensions dimensions.now) }
{
    for (place, dimension) in dimensions.iter().enumerate() {
        if dimension.id.0 == id.0 {
            return Some(place);
        }
    }
    None
}

/// The least id that no dimension has.
pub fn free_dimension_id<A, P>(dimensions: &[Dimension<A, P>]) -> DimensionId
    requires { length dimensions.now < 2 ^ 32 }
    ensures { IsFreeId (held_ids dimensions.now) result.0 }
{
    let mut id = 0;
    while dimension_place(dimensions, DimensionId(id)).is_some() {
        id += 1;
    }
    DimensionId(id)
}
