//! Wholes that come and go, and their values.
ghost use Rattle.std.specs.Prelude.{◌≡◌, ◌⊎◌, true, IfErr, IfOk, OnErr, OnOk, Some, None, option_map};

use crate::cross::Cross;
use crate::fold::Rows;
use crate::folding::fold_new_whole;
use crate::ids::{NoWhole, WholeId};
use crate::whole::{Whole, free_whole_id};
use crate::whole_refusal::WholeRefusal;
use std::sync::ledger::Ledger;
use xf_access::{Accessor, Rounding};
use xf_base::{RowList, Steps};
use xf_filter::Predicate;
use xf_reduce::Reducer;

impl<A: Accessor, G: Rounding, P: Predicate, R: Reducer> Cross<A, G, P, R> {
    ghost use Rattle.xf_engine.specs.Answers.{whole_meaning};
    ghost use Rattle.xf_engine.specs.Changes.{with_whole, without_whole};
    ghost use Rattle.xf_engine.specs.Refusals.{no_whole, unless_none, whole_refusal_of};
    ghost use Rattle.xf_engine.specs.State.{IsFreeId, whole_ids, whole_named};

    /// Adds a whole: what a reducer keeps of the records that pass every dimension. Its id is the least that no live whole
    /// has.
    pub fn add_whole<L: Ledger>(
        &mut self,
        reducer: R,
        steps: &mut Steps<L>,
    ) -> Result<WholeId, WholeRefusal>
        requires { R.fits_to reducer self.old.columns ≡ true }
        ensures ok { IfOk result (λ id. self.new ≡ with_whole self.old id.0 reducer) }
        ensures id { IfOk result (λ id. IsFreeId (whole_ids self.old.wholes) id.0) }
        ensures accepted { OnOk result (whole_refusal_of self.old ≡ None) }
        ensures refused { IfErr result (λ cause. (cause ≡ WholeRefusal.OutOfMemory) ⊎ (whole_refusal_of self.old ≡ Some cause)) }
        ensures err { OnErr result (self.new ≡ self.old) }
    {
        let limit = self.table.limits().groups;
        if (self.groups.len() + self.wholes.len()) as u64 >= limit {
            return Err(WholeRefusal::TooManyGroups { limit });
        }
        let id = free_whole_id(self.wholes.as_slice());
        let none = RowList::new(self.alloc);
        let rows = Rows {
            held: self.table.rows(steps),
            added: &none,
        };
        let value = fold_new_whole(
            self.alloc,
            self.dimensions.as_slice(),
            &reducer,
            &rows,
            steps,
        )?;
        self.wholes.push(Whole { id, reducer, value })?;
        Ok(id)
    }

    /// Takes a whole away.
    pub fn dispose_whole(&mut self, id: WholeId) -> Result<(), NoWhole>
        ensures answer { result ≡ unless_none (no_whole id.0) (option_map (λ _. tt) (whole_named self.old id.0)) }
        ensures state { self.new ≡ without_whole self.old id.0 }
    {
        let Some(place) = self.whole_place_of(id) else {
            return Err(NoWhole { id: id.0 });
        };
        self.wholes.remove(place);
        Ok(())
    }

    /// The value of a whole.
    pub fn whole(&self, id: WholeId) -> Result<&R::Value, NoWhole>
        ensures value { IfOk result (λ value. option_map (whole_meaning {G = G} A.keys_of P.says_to R.folding self.now) (whole_named self.now id.0) ≡ Some (R.meaning_of value.now)) }
        ensures refused { IfErr result (λ cause. (cause ≡ no_whole id.0) × (whole_named self.now id.0 ≡ None)) }
    {
        match self.whole_place_of(id) {
            Some(place) => Ok(&self.wholes[place].value),
            None => Err(NoWhole { id: id.0 }),
        }
    }

    /// The reducer of a whole.
    pub fn whole_reducer(&self, id: WholeId) -> Result<&R, NoWhole>
        ensures reducer { IfOk result (λ own. option_map (λ whole. whole.reducer) (whole_named self.now id.0) ≡ Some own.now) }
        ensures refused { IfErr result (λ cause. (cause ≡ no_whole id.0) × (whole_named self.now id.0 ≡ None)) }
    {
        match self.whole_place_of(id) {
            Some(place) => Ok(&self.wholes[place].reducer),
            None => Err(NoWhole { id: id.0 }),
        }
    }
}
