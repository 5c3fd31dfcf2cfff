//! Another filter on one dimension, with all groups and wholes folded anew; the keys and places of groups stay.
ghost use Rattle.std.specs.Prelude.{◌≡◌, ◌<◌, ◌≤◌, ◌^◌, true, IfOk, OnErr, OnOk, Some, length, option_map, slice_get, sum_by};
ghost use Rattle.std.specs.List.{AllByRecursion};
ghost use Rattle.xf_base.specs.declared.limits.TheConstants.Limits.{ROWS};
ghost use Rattle.xf_engine.specs.Held.{HoldsKeysOf, HoldsPlacesOf, held_ids, held_moved, live_dimensions, most_moved};
ghost use Rattle.xf_engine.specs.Refolded.{AreRegrouped, AreRevalued, filtered_at};
ghost use Rattle.xf_engine.specs.State.{is_taken};
ghost use Rattle.xf_group.specs.Admitted.{SuitAll};

use crate::counts::moved_count;
use crate::dimension::Dimension;
use crate::folding::{Counting, put_values, refold_values};
use crate::grouping::Grouping;
use crate::whole::Whole;
use std::alloc::Global;
use std::mem::replace;
use std::sync::ledger::Ledger;
use xf_access::{Accessor, Rounding};
use xf_base::{OutOfMemory, Steps};
use xf_filter::{Filter, Predicate};
use xf_group::Group;
use xf_reduce::Reducer;
use xf_table::Table;

/// Sets a filter on the dimension at a place, and folds all groups and wholes anew under it. Gives how much that moves.
/// Where memory is refused all stays as it was.
pub fn refilter_at<A: Accessor, G: Rounding, P: Predicate, R: Reducer, L: Ledger>(
    alloc: Global,
    table: &Table,
    dimensions: &mut [Dimension<A, P>],
    place: usize,
    filter: Filter<P>,
    groups: &mut [Grouping<G, Group<R>>],
    wholes: &mut [Whole<R, R::Value>],
    steps: &mut Steps<L>,
) -> Result<u64, OutOfMemory>
    requires place { place < length dimensions.old }
    requires few { sum_by most_moved dimensions.old < 2 ^ 64 }
    requires few_rows { length table.now.rows ≤ ROWS }
    requires keys { AllByRecursion (HoldsKeysOf A.keys_of table.now.rows) dimensions.old }
    requires live { AllByRecursion (λ held. is_taken (held_ids dimensions.old) held.dimension.0 ≡ true) groups.old }
    requires places { AllByRecursion (HoldsPlacesOf A.keys_of G.rounded (live_dimensions dimensions.old) table.now.rows) groups.old }
    requires group_suit { AllByRecursion (λ held. SuitAll (R.fits_to held.group.reducer) table.now.rows) groups.old }
    requires whole_suit { AllByRecursion (λ held. SuitAll (R.fits_to held.reducer) table.now.rows) wholes.old }
    ensures moved { IfOk result (λ moved. option_map (held_moved P.says_to filter) (slice_get dimensions.old place) ≡ Some moved) }
    ensures filter { OnOk result (dimensions.new ≡ filtered_at place filter dimensions.old) }
    ensures groups { OnOk result (AreRegrouped A.keys_of P.says_to G.rounded R.meaning_of R.folding (live_dimensions dimensions.new) table.now.rows groups.old groups.new) }
    ensures wholes { OnOk result (AreRevalued A.keys_of P.says_to R.meaning_of R.folding (live_dimensions dimensions.new) table.now.rows wholes.old wholes.new) }
    ensures same_filters { OnErr result (dimensions.new ≡ dimensions.old) }
    ensures same_groups { OnErr result (groups.new ≡ groups.old) }
    ensures same_wholes { OnErr result (wholes.new ≡ wholes.old) }
{
    let old = replace(&mut dimensions[place].filter, filter);
    let folded = refold_values(
        alloc,
        table,
        dimensions,
        groups,
        wholes,
        &Counting::Passing,
        steps,
    );
    let Ok(folded) = folded else {
        dimensions[place].filter = old;
        return Err(OutOfMemory);
    };
    let dimension = &dimensions[place];
    let moved = moved_count(&dimension.keys, &old, &dimension.filter);
    put_values(groups, wholes, folded);
    Ok(moved)
}
