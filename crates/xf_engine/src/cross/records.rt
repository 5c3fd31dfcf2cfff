//! Records that are added.
ghost use Rattle.std.specs.Prelude.{◌≡◌, ◌⊎◌, ◌+◌, ◌≤◌, IfErr, OnErr, OnOk, Some, None, length, map, sum_by};
ghost use Rattle.xf_base.specs.declared.limits.TheConstants.Limits.{DIMENSIONS};
ghost use Rattle.xf_engine.specs.Held.{HoldEach, IsEntryRefusal, held_count, more_count, with_keys_of};

use crate::add_refusal::AddRefusal;
use crate::cross::Cross;
use crate::dimension::Dimension;
use crate::entries::{add_keys, entry_count, keep_keys};
use crate::events::one_more;
use crate::fold::Rows;
use crate::folding::{Counting, fold_values, put_values};
use std::alloc::Global;
use std::sync::ledger::Ledger;
use xf_access::{Accessor, Rounding};
use xf_base::{RowList, Steps};
use xf_filter::Predicate;
use xf_reduce::Reducer;

impl<A: Accessor, G: Rounding, P: Predicate, R: Reducer> Cross<A, G, P, R> {
    ghost use Rattle.xf_engine.specs.Changes.{with_rows};
    ghost use Rattle.xf_engine.specs.Refusals.{add_refusal_of};

    /// Adds records at the end, or refuses and drops all of them. Each group then has their keys too.
    pub fn add_records<L: Ledger>(
        &mut self,
        rows: RowList,
        steps: &mut Steps<L>,
    ) -> Result<(), AddRefusal>
        ensures ok { OnOk result (self.new ≡ with_rows self.old rows) }
        ensures accepted { OnOk result (add_refusal_of A.keys_of self.old rows ≡ None) }
        ensures refused { IfErr result (λ cause. (cause ≡ AddRefusal.OutOfMemory) ⊎ (add_refusal_of A.keys_of self.old rows ≡ Some cause)) }
        ensures err { OnErr result (self.new ≡ self.old) }
    {
        if let Some(cause) = self.table.refusal_of(&rows) {
            return Err(cause.into());
        }
        let count = self.table.len();
        let limit = self.table.limits().entries;
        add_entries(self.alloc, &mut self.dimensions, count, limit, &rows)?;
        let folded = fold_values(
            self.alloc,
            self.dimensions.as_slice(),
            self.groups.as_slice(),
            self.wholes.as_slice(),
            &Rows {
                held: self.table.rows(steps),
                added: &rows,
            },
            &Counting::Passing,
            steps,
        );
        let Ok(folded) = folded else {
            keep_keys(&mut self.dimensions, count);
            return Err(AddRefusal::OutOfMemory);
        };
        if self.table.push(rows).is_err() {
            keep_keys(&mut self.dimensions, count);
            return Err(AddRefusal::OutOfMemory);
        }
        put_values(&mut self.groups, &mut self.wholes, folded);
        self.events.added = one_more(self.events.added);
        Ok(())
    }
}

/// Puts the keys of rows into each dimension, or leaves all as they were where there would be too many or memory is refused.
fn add_entries<A: Accessor, P: Drop>(
    alloc: Global,
    dimensions: &mut [Dimension<A, P>],
    count: usize,
    limit: u64,
    rows: &RowList,
) -> Result<(), AddRefusal>
    requires held { HoldEach count dimensions.old }
    requires few { length dimensions.old ≤ DIMENSIONS }
    requires within { sum_by held_count dimensions.old ≤ limit }
    ensures keys { OnOk result (dimensions.new ≡ map (with_keys_of A.keys_of rows.now) dimensions.old) }
    ensures room { OnOk result (sum_by held_count dimensions.old + more_count A.keys_of rows.now dimensions.old ≤ limit) }
    ensures same_keys { OnErr result (dimensions.new ≡ dimensions.old) }
    ensures refused { IfErr result (IsEntryRefusal limit (sum_by held_count dimensions.old) (more_count A.keys_of rows.now dimensions.old)) }
{
    let have = entry_count(dimensions);
    if add_keys(alloc, dimensions, count, rows.as_slice()).is_err() {
        keep_keys(dimensions, count);
        return Err(AddRefusal::OutOfMemory);
    }
    let more = entry_count(dimensions) - have;
    if more > limit - have {
        keep_keys(dimensions, count);
        return Err(AddRefusal::TooManyEntries { have, more, limit });
    }
    Ok(())
}
