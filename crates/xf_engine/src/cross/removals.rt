//! Records that are removed.
ghost use Rattle.std.specs.Prelude.{◌≡◌, ◌⊎◌, ◌+◌, IfErr, IfOk, OnErr, OnOk, Some, None, length};

use crate::cross::Cross;
use crate::entries::retain_keys;
use crate::events::one_more;
use crate::folding::{Counting, put_values, refold_values};
use crate::ids::DimensionId;
use crate::marks::{marks_under, passing_marks};
use crate::remove_refusal::RemoveRefusal;
use std::sync::ledger::Ledger;
use xf_access::{Accessor, Rounding};
use xf_base::{Gone, OutOfMemory, Steps};
use xf_filter::{Filter, Predicate};
use xf_reduce::Reducer;

impl<A: Accessor, G: Rounding, P: Predicate, R: Reducer> Cross<A, G, P, R> {
    ghost use Rattle.xf_engine.specs.Answers.{passing_count, passing_under};
    ghost use Rattle.xf_engine.specs.Changes.{without_passing, without_where};
    ghost use Rattle.xf_engine.specs.Held.{with_kept};
    ghost use Rattle.xf_engine.specs.Refusals.{filter_refusal_of, remove_refusal_of};

    /// Removes the records that pass every dimension. The filters stay. Gives how many records those were.
    pub fn remove_passing<L: Ledger>(&mut self, steps: &mut Steps<L>) -> Result<u64, OutOfMemory>
        ensures removed { IfOk result (λ count. count ≡ passing_count A.keys_of P.says_to self.old) }
        ensures ok { OnOk result (self.new ≡ without_passing A.keys_of P.says_to self.old) }
        ensures err { OnErr result (self.new ≡ self.old) }
    {
        let count = self.table.len();
        steps.tick_by(count as u64);
        let marks = passing_marks(self.alloc, self.dimensions.as_slice(), count)?;
        let gone = Gone::of(self.alloc, marks)?;
        self.remove(&gone, steps)
    }

    /// Removes the records that pass a dimension under a filter, whatever filters are set, which stay: so "all" removes
    /// every record. Gives how many records those were. A filter with a key that is not of the dimension's kind is
    /// refused.
    pub fn remove_where<L: Ledger>(
        &mut self,
        id: DimensionId,
        filter: &Filter<P>,
        steps: &mut Steps<L>,
    ) -> Result<u64, RemoveRefusal>
        ensures removed { IfOk result (λ count. Some count ≡ passing_under A.keys_of P.says_to self.old id.0 filter.now) }
        ensures ok { OnOk result (self.new ≡ without_where A.keys_of P.says_to self.old id.0 filter.now) }
        ensures accepted { OnOk result (filter_refusal_of A.kind_of P.keys_in self.old id.0 filter.now ≡ None) }
        ensures refused { IfErr result (λ cause. (cause ≡ RemoveRefusal.OutOfMemory) ⊎ (remove_refusal_of A.kind_of P.keys_in self.old id.0 filter.now ≡ Some cause)) }
        ensures err { OnErr result (self.new ≡ self.old) }
    {
        let place = self.fitting_place(id, filter)?;
        steps.tick_by(self.table.len() as u64);
        let marks = marks_under(self.alloc, &self.dimensions[place].keys, filter)?;
        let gone = Gone::of(self.alloc, marks)?;
        Ok(self.remove(&gone, steps)?)
    }

    /// Removes the records at places that are gone, with their keys, and tells how many those were.
    fn remove<L: Ledger>(&mut self, gone: &Gone, steps: &mut Steps<L>) -> Result<u64, OutOfMemory>
        requires { length gone.now ≡ length self.old.rows }
        ensures count { IfOk result (λ count. count + length self.new.rows ≡ length self.old.rows) }
        ensures state { OnOk result (self.new ≡ with_kept gone.now self.old) }
        ensures err { OnErr result (self.new ≡ self.old) }
    {
        let folded = refold_values(
            self.alloc,
            &self.table,
            self.dimensions.as_slice(),
            self.groups.as_slice(),
            self.wholes.as_slice(),
            &Counting::Staying(gone),
            steps,
        )?;
        let before = self.table.len();
        retain_keys(&mut self.dimensions, gone);
        self.table.retain(gone);
        put_values(&mut self.groups, &mut self.wholes, folded);
        self.events.removed = one_more(self.events.removed);
        Ok((before - self.table.len()) as u64)
    }
}
