//! Dimensions that come and go.
ghost use Rattle.std.specs.Prelude.{◌≡◌, ◌⊎◌, ◌<◌, ◌^◌, true, length, IfErr, IfOk, OnErr, OnOk, Some, None};

use crate::cross::Cross;
use crate::dimension::{Dimension, free_dimension_id};
use crate::dimension_refusal::DimensionRefusal;
use crate::dispose_refusal::DisposeRefusal;
use crate::entries::{entry_count, keys_of_rows};
use crate::grouping::drop_groups_of;
use crate::ids::DimensionId;
use crate::refilter::refilter_at;
use std::sync::ledger::Ledger;
use xf_access::{Accessor, Rounding};
use xf_base::Steps;
use xf_filter::{Filter, Predicate};
use xf_reduce::Reducer;

impl<A: Accessor, G: Rounding, P: Predicate, R: Reducer> Cross<A, G, P, R> {
    ghost use Rattle.xf_engine.specs.Answers.{moved_by};
    ghost use Rattle.xf_engine.specs.Changes.{with_dimension, without_dimension};
    ghost use Rattle.xf_engine.specs.Refusals.{dimension_refusal_of};
    ghost use Rattle.xf_engine.specs.State.{IsFreeId, dimension_ids, dimension_named};
    ghost use Rattle.xf_filter.specs.declared.filter.Filter.TheVariants.{All};

    /// Adds a dimension, without a filter. Its id is the least that no live dimension has. The accessor is asked for the
    /// keys of each record once, here or when the record comes.
    pub fn add_dimension<L: Ledger>(
        &mut self,
        accessor: A,
        steps: &mut Steps<L>,
    ) -> Result<DimensionId, DimensionRefusal>
        requires { A.fits_to accessor self.old.columns ≡ true }
        ensures ok { IfOk result (λ id. self.new ≡ with_dimension self.old id.0 accessor) }
        ensures id { IfOk result (λ id. IsFreeId (dimension_ids self.old.dimensions) id.0) }
        ensures accepted { OnOk result (dimension_refusal_of A.keys_of self.old accessor ≡ None) }
        ensures refused { IfErr result (λ cause. (cause ≡ DimensionRefusal.OutOfMemory) ⊎ (dimension_refusal_of A.keys_of self.old accessor ≡ Some cause)) }
        ensures err { OnErr result (self.new ≡ self.old) }
    {
        let limit = self.table.limits().dimensions;
        if self.dimensions.len() as u64 >= limit {
            return Err(DimensionRefusal::TooManyDimensions { limit });
        }
        let keys = keys_of_rows(self.alloc, &accessor, self.table.rows(steps).as_slice())?;
        let have = entry_count(self.dimensions.as_slice());
        let more = keys.item_count() as u64;
        let limit = self.table.limits().entries;
        if more > limit - have {
            return Err(DimensionRefusal::TooManyEntries { have, more, limit });
        }
        let id = free_dimension_id(self.dimensions.as_slice());
        self.dimensions.push(Dimension {
            id,
            accessor,
            filter: Filter::All,
            keys,
        })?;
        Ok(id)
    }

    /// Takes a dimension away, with its filter and its groups. Gives how much taking its filter away moves.
    pub fn dispose_dimension<L: Ledger>(
        &mut self,
        id: DimensionId,
        steps: &mut Steps<L>,
    ) -> Result<u64, DisposeRefusal>
        ensures moved { IfOk result (λ moved. Some moved ≡ moved_by A.keys_of P.says_to self.old id.0 All) }
        ensures ok { OnOk result (self.new ≡ without_dimension self.old id.0) }
        ensures refused { IfErr result (λ cause. (cause ≡ DisposeRefusal.OutOfMemory)
            ⊎ ((cause ≡ DisposeRefusal.NoDimension id.0) × (dimension_named self.old id.0 ≡ None))) }
        ensures err { OnErr result (self.new ≡ self.old) }
    {
        let Some(place) = self.place_of(id) else {
            return Err(DisposeRefusal::NoDimension { id: id.0 });
        };
        let moved = refilter_at(
            self.alloc,
            &self.table,
            &mut self.dimensions,
            place,
            Filter::All,
            &mut self.groups,
            &mut self.wholes,
            steps,
        )?;
        self.dimensions.remove(place);
        drop_groups_of(&mut self.groups, id);
        Ok(moved)
    }
}
