//! Filters that are set, and the records that pass them.
ghost use Rattle.std.specs.Prelude.{◌≡◌, ◌⊎◌, ◌<◌, ◌^◌, IfErr, IfOk, OnErr, OnOk, Some, None, map, sum_by};
ghost use Rattle.xf_engine.specs.Held.{held_moved, held_unfiltered, most_moved};
ghost use Rattle.xf_filter.specs.declared.filter.Filter.TheVariants.{All};

use crate::counts::passing_count;
use crate::cross::Cross;
use crate::dimension::Dimension;
use crate::events::one_more;
use crate::filter_refusal::FilterRefusal;
use crate::folding::{Counting, put_values, refold_values};
use crate::ids::{DimensionId, NoDimension};
use crate::refilter::refilter_at;
use std::sync::ledger::Ledger;
use xf_access::{Accessor, Rounding};
use xf_base::{OutOfMemory, Steps};
use xf_filter::{Filter, Predicate};
use xf_reduce::Reducer;

impl<A: Accessor, G: Rounding, P: Predicate, R: Reducer> Cross<A, G, P, R> {
    ghost use Rattle.xf_engine.specs.Answers.{filter_named, moved_by, moved_by_clearing, passing_count};
    ghost use Rattle.xf_engine.specs.Changes.{with_filter, without_filters};
    ghost use Rattle.xf_engine.specs.Refusals.{filter_refusal_of, no_dimension};
    ghost use Rattle.xf_engine.specs.State.{dimension_named, dimension_place};

    /// Sets a filter on a dimension in place of the one that was set. Gives how much it moves: for how many keys of
    /// records exactly one of the two filters holds, and how many records without keys come or go. A record without keys
    /// passes only under "all". A filter with a key that is not of the dimension's kind is refused.
    pub fn set_filter<L: Ledger>(
        &mut self,
        id: DimensionId,
        filter: Filter<P>,
        steps: &mut Steps<L>,
    ) -> Result<u64, FilterRefusal>
        ensures moved { IfOk result (λ moved. Some moved ≡ moved_by A.keys_of P.says_to self.old id.0 filter) }
        ensures ok { OnOk result (self.new ≡ with_filter self.old id.0 filter) }
        ensures accepted { OnOk result (filter_refusal_of A.kind_of P.keys_in self.old id.0 filter ≡ None) }
        ensures refused { IfErr result (λ cause. (cause ≡ FilterRefusal.OutOfMemory) ⊎ (filter_refusal_of A.kind_of P.keys_in self.old id.0 filter ≡ Some cause)) }
        ensures err { OnErr result (self.new ≡ self.old) }
    {
        let place = self.fitting_place(id, &filter)?;
        let moved = refilter_at(
            self.alloc,
            &self.table,
            &mut self.dimensions,
            place,
            filter,
            &mut self.groups,
            &mut self.wholes,
            steps,
        )?;
        self.events.filtered = one_more(self.events.filtered);
        Ok(moved)
    }

    /// The place of the dimension of an id, where each key in a filter is of its kind.
    pub(super) fn fitting_place(
        &self,
        id: DimensionId,
        filter: &Filter<P>,
    ) -> Result<usize, FilterRefusal>
        ensures place { IfOk result (λ place. dimension_place self.now id.0 ≡ Some place) }
        ensures accepted { OnOk result (filter_refusal_of A.kind_of P.keys_in self.now id.0 filter.now ≡ None) }
        ensures refused { IfErr result (λ cause. filter_refusal_of A.kind_of P.keys_in self.now id.0 filter.now ≡ Some cause) }
    {
        let Some(place) = self.place_of(id) else {
            return Err(FilterRefusal::NoDimension { id: id.0 });
        };
        let wanted = self.dimensions[place].accessor.kind();
        match filter.misfit(&wanted) {
            Some(given) => Err(FilterRefusal::WrongKind { wanted, given }),
            None => Ok(place),
        }
    }

    /// Takes the filter of every dimension away. Gives how much that moves in all of them together.
    pub fn clear_all<L: Ledger>(&mut self, steps: &mut Steps<L>) -> Result<u64, OutOfMemory>
        ensures moved { IfOk result (λ moved. moved ≡ moved_by_clearing A.keys_of P.says_to self.old) }
        ensures state { OnOk result (self.new ≡ without_filters self.old) }
        ensures err { OnErr result (self.new ≡ self.old) }
    {
        let folded = refold_values(
            self.alloc,
            &self.table,
            self.dimensions.as_slice(),
            self.groups.as_slice(),
            self.wholes.as_slice(),
            &Counting::Every,
            steps,
        )?;
        let moved = clear_each(&mut self.dimensions, steps);
        put_values(&mut self.groups, &mut self.wholes, folded);
        self.events.filtered = one_more(self.events.filtered);
        Ok(moved)
    }

    /// The filter that is set on a dimension.
    pub fn filter(&self, id: DimensionId) -> Result<&Filter<P>, NoDimension>
        ensures filter { IfOk result (λ own. Some own.now ≡ filter_named self.now id.0) }
        ensures refused { IfErr result (λ cause. (cause ≡ no_dimension id.0) × (dimension_named self.now id.0 ≡ None)) }
    {
        match self.place_of(id) {
            Some(place) => Ok(&self.dimensions[place].filter),
            None => Err(NoDimension { id: id.0 }),
        }
    }

    /// How many records pass every dimension.
    pub fn passing_count<L: Ledger>(&self, steps: &mut Steps<L>) -> u64
        ensures { result ≡ passing_count A.keys_of P.says_to self.now }
    {
        passing_count(
            self.dimensions.as_slice(),
            self.table.rows(steps).as_slice(),
        )
    }
}

/// Takes the filter of each dimension away, and tells how much that moves in all of them together.
fn clear_each<A, P: Predicate, L: Ledger>(
    dimensions: &mut [Dimension<A, P>],
    steps: &mut Steps<L>,
) -> u64
    requires { sum_by most_moved dimensions.old < 2 ^ 64 }
    ensures moved { result ≡ sum_by (held_moved P.says_to All) dimensions.old }
    ensures cleared { dimensions.new ≡ map held_unfiltered dimensions.old }
{
    let mut moved = 0;
    for place in 0..dimensions.len() {
        let dimension = &mut dimensions[place];
        steps.tick_by(dimension.keys.len() as u64);
        moved += dimension.refilter(Filter::All);
    }
    moved
}
