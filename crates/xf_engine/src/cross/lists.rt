//! The records with the least and the greatest keys, and those that pass.
ghost use Rattle.std.specs.Prelude.{◌≡◌, ◌⊎◌, IfErr, IfOk, OnOk, Some, None};

use crate::cross::Cross;
use crate::filtered::{filtered_places, first_missing};
use crate::ids::DimensionId;
use crate::list_refusal::ListRefusal;
use crate::listing::{bottom_places, top_places};
use std::sync::ledger::Ledger;
use xf_access::{Accessor, Rounding};
use xf_base::Steps;
use xf_filter::Predicate;
use xf_reduce::Reducer;

impl<A: Accessor, G: Rounding, P: Predicate, R: Reducer> Cross<A, G, P, R> {
    ghost use Rattle.xf_engine.specs.Answers.{all_filtered_of, bottom_of, top_of};
    ghost use Rattle.xf_engine.specs.Refusals.{ignored_refusal_of};
    ghost use Rattle.xf_engine.specs.State.{dimension_named, id_numbers};

    /// The places of the records with the least keys of a dimension, among those that pass every filter: the first `k`
    /// after the first `offset`, ascending by key and, where keys are equal, by place. A record of several keys stands
    /// once for each of them that the dimension's own filter holds for.
    pub fn bottom<L: Ledger>(
        &self,
        id: DimensionId,
        k: usize,
        offset: usize,
        steps: &mut Steps<L>,
    ) -> Result<Vec<usize>, ListRefusal>
        ensures places { IfOk result (λ v. bottom_of A.keys_of P.says_to self.now id.0 k offset ≡ Some v.items) }
        ensures refused { IfErr result (λ cause. (cause ≡ ListRefusal.OutOfMemory)
            ⊎ ((cause ≡ ListRefusal.NoDimension id.0) × (dimension_named self.now id.0 ≡ None))) }
    {
        let Some(place) = self.place_of(id) else {
            return Err(ListRefusal::NoDimension { id: id.0 });
        };
        Ok(bottom_places(
            self.alloc,
            self.dimensions.as_slice(),
            &self.dimensions[place],
            self.table.rows(steps).as_slice(),
            k,
            offset,
        )?)
    }

    /// The places of the records with the greatest keys: the same list as `bottom` of all of them from its end, and then
    /// the first `k` after the first `offset`. So equal keys come by descending place.
    pub fn top<L: Ledger>(
        &self,
        id: DimensionId,
        k: usize,
        offset: usize,
        steps: &mut Steps<L>,
    ) -> Result<Vec<usize>, ListRefusal>
        ensures places { IfOk result (λ v. top_of A.keys_of P.says_to self.now id.0 k offset ≡ Some v.items) }
        ensures refused { IfErr result (λ cause. (cause ≡ ListRefusal.OutOfMemory)
            ⊎ ((cause ≡ ListRefusal.NoDimension id.0) × (dimension_named self.now id.0 ≡ None))) }
    {
        let Some(place) = self.place_of(id) else {
            return Err(ListRefusal::NoDimension { id: id.0 });
        };
        Ok(top_places(
            self.alloc,
            self.dimensions.as_slice(),
            &self.dimensions[place],
            self.table.rows(steps).as_slice(),
            k,
            offset,
        )?)
    }

    /// The places of the records that pass every dimension but those that are ignored, ascending. An id that is ignored
    /// must be live: the first that is not is told.
    pub fn all_filtered<L: Ledger>(
        &self,
        ignored: &[DimensionId],
        steps: &mut Steps<L>,
    ) -> Result<Vec<usize>, ListRefusal>
        ensures places { IfOk result (λ v. v.items ≡ all_filtered_of A.keys_of P.says_to self.now (id_numbers ignored.now)) }
        ensures accepted { OnOk result (ignored_refusal_of self.now (id_numbers ignored.now) ≡ None) }
        ensures refused { IfErr result (λ cause. (cause ≡ ListRefusal.OutOfMemory) ⊎ (ignored_refusal_of self.now (id_numbers ignored.now) ≡ Some cause)) }
    {
        if let Some(id) = first_missing(self.dimensions.as_slice(), ignored) {
            return Err(ListRefusal::NoDimension { id });
        }
        steps.tick_by(self.table.len() as u64);
        Ok(filtered_places(
            self.alloc,
            self.dimensions.as_slice(),
            ignored,
            self.table.len(),
        )?)
    }
}
