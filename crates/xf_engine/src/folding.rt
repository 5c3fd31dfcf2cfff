//! All groups and wholes folded anew: what a change of filters or records makes of them. They are put in place only when
//! all are made.
ghost use Rattle.std.specs.Prelude.{◌≡◌, ◌++◌, ◌<◌, ◌≤◌, true, IfOk, IfSome, List, length, map, slice_get};
ghost use Rattle.std.specs.List.{AllByRecursion, range_with_len};
ghost use Rattle.xf_base.specs.Key.{key_cmp};
ghost use Rattle.xf_base.specs.declared.cell.Cell.{Cell};
ghost use Rattle.xf_base.specs.declared.key.Key.{Key};
ghost use Rattle.xf_base.specs.declared.limits.TheConstants.Limits.{ROWS};
ghost use Rattle.xf_engine.specs.Answers.{entries_at};
ghost use Rattle.xf_engine.specs.Folding.{AreFoldedFor, AreValuesFor, HasMarks, IsFoldedFor, counts_at, dimensions_then, passes_but_at, regrouped, revalued, rows_then};
ghost use Rattle.xf_engine.specs.Held.{HoldEach, HoldsKeysOf, HoldsPlacesOf, held_ids, live_dimensions, places_under};
ghost use Rattle.xf_engine.specs.State.{dimensions_of, is_taken};
ghost use Rattle.xf_group.specs.Admitted.{SuitAll};
ghost use Rattle.xf_group.specs.Group.{keys_in, meanings};
ghost use Rattle.xf_model.specs.Group.{group_entries, whole_value};

use crate::dimension::{Dimension, dimension_place, passes_each, passes_others};
use crate::fold::{Rows, add_rows, enter_added, fold_whole};
use crate::grouping::{Grouping, regroup};
use crate::whole::{Whole, revalue};
use std::alloc::Global;
use std::sync::ledger::Ledger;
use xf_access::{Accessor, Rounding};
use xf_base::{Gone, OutOfMemory, RowList, Steps};
use xf_filter::Predicate;
use xf_group::Group;
use xf_reduce::Reducer;
use xf_table::Table;

/// Which rows a group or a whole counts.
#[derive(Clone, Copy)]
pub enum Counting<'a> {
    /// Those that pass the filters that are set.
    Passing,
    /// All: no filter is set.
    Every,
    /// Those that pass and are not gone.
    Staying(&'a Gone),
}

impl Counting<'_> {
    /// Whether the row at a place counts: it passes each dimension but the one at the place `own`, if one is named.
    fn counts<A, P: Predicate>(
        &self,
        dimensions: &[Dimension<A, P>],
        own: Option<usize>,
        count: usize,
        place: usize,
    ) -> bool
        requires held { HoldEach count dimensions.now }
        requires own { IfSome own (λ place. place < length dimensions.now) }
        requires place { place < count }
        requires marks { HasMarks self.now count }
        ensures { result ≡ counts_at P.says_to self.now dimensions.now own place }
    {
        match self {
            Counting::Passing => passes_but(dimensions, own, count, place),
            Counting::Every => true,
            Counting::Staying(gone) => {
                !gone.is_gone(place) && passes_but(dimensions, own, count, place)
            }
        }
    }
}

/// Whether the row at a place passes each dimension but the one at the place `own`, if one is named.
fn passes_but<A, P: Predicate>(
    dimensions: &[Dimension<A, P>],
    own: Option<usize>,
    count: usize,
    place: usize,
) -> bool
    requires held { HoldEach count dimensions.now }
    requires own { IfSome own (λ place. place < length dimensions.now) }
    requires place { place < count }
    ensures { result ≡ passes_but_at P.says_to dimensions.now own place }
{
    match own {
        Some(own) => passes_others(dimensions, count, own, place),
        None => passes_each(dimensions, count, place),
    }
}

/// For each row whether it counts.
fn counts<A, P: Predicate>(
    alloc: Global,
    dimensions: &[Dimension<A, P>],
    own: Option<usize>,
    counting: &Counting<'_>,
    count: usize,
) -> Result<Vec<bool>, OutOfMemory>
    requires held { HoldEach count dimensions.now }
    requires own { IfSome own (λ place. place < length dimensions.now) }
    requires marks { HasMarks counting.now count }
    ensures { IfOk result (λ v. v.items ≡ map (counts_at P.says_to counting.now dimensions.now own) (range_with_len 0 count)) }
{
    let mut counts = Vec::with_capacity(alloc, count)?;
    for place in 0..count {
        counts.push(counting.counts(dimensions, own, count, place))?;
    }
    Ok(counts)
}

/// The values of all groups and wholes, in their order.
#[derive(Drop)]
pub struct Folded<R: Reducer> {
    pub groups: Vec<Group<R>>,
    pub wholes: Vec<R::Value>,
}

/// Folds all groups and wholes anew over the rows of a table: their keys and places stay.
pub fn refold_values<A: Accessor, G: Rounding, P: Predicate, R: Reducer, L: Ledger>(
    alloc: Global,
    table: &Table,
    dimensions: &[Dimension<A, P>],
    groups: &[Grouping<G, Group<R>>],
    wholes: &[Whole<R, R::Value>],
    counting: &Counting<'_>,
    steps: &mut Steps<L>,
) -> Result<Folded<R>, OutOfMemory>
    requires keys { AllByRecursion (HoldsKeysOf A.keys_of table.now.rows) dimensions.now }
    requires live { AllByRecursion (λ held. is_taken (held_ids dimensions.now) held.dimension.0 ≡ true) groups.now }
    requires places { AllByRecursion (HoldsPlacesOf A.keys_of G.rounded (live_dimensions dimensions.now) table.now.rows) groups.now }
    requires group_suit { AllByRecursion (λ held. SuitAll (R.fits_to held.group.reducer) table.now.rows) groups.now }
    requires whole_suit { AllByRecursion (λ held. SuitAll (R.fits_to held.reducer) table.now.rows) wholes.now }
    requires few { length table.now.rows ≤ ROWS }
    requires marks { HasMarks counting.now (length table.now.rows) }
    ensures groups { IfOk result (λ folded. AreFoldedFor A.keys_of P.says_to G.rounded R.meaning_of R.folding (dimensions_then counting.now (live_dimensions dimensions.now)) (rows_then counting.now table.now.rows) groups.now folded.groups.items) }
    ensures wholes { IfOk result (λ folded. AreValuesFor A.keys_of P.says_to R.meaning_of R.folding (dimensions_then counting.now (live_dimensions dimensions.now)) (rows_then counting.now table.now.rows) wholes.now folded.wholes.items) }
{
    let none = RowList::new(alloc);
    let rows = Rows {
        held: table.rows(steps),
        added: &none,
    };
    fold_values(alloc, dimensions, groups, wholes, &rows, counting, steps)
}

/// Puts values in place.
pub fn put_values<G, R: Reducer>(
    groups: &mut [Grouping<G, Group<R>>],
    wholes: &mut [Whole<R, R::Value>],
    folded: Folded<R>,
)
    requires groups { length folded.groups.items ≡ length groups.old }
    requires wholes { length folded.wholes.items ≡ length wholes.old }
    ensures groups { groups.new ≡ regrouped groups.old folded.groups.items }
    ensures wholes { wholes.new ≡ revalued wholes.old folded.wholes.items }
{
    regroup(groups, folded.groups);
    revalue(wholes, folded.wholes);
}

/// Folds all groups and wholes over rows. The groups have the places of those that are held.
pub fn fold_values<A: Accessor, G: Rounding, P: Predicate, R: Reducer, L: Ledger>(
    alloc: Global,
    dimensions: &[Dimension<A, P>],
    groups: &[Grouping<G, Group<R>>],
    wholes: &[Whole<R, R::Value>],
    rows: &Rows<'_>,
    counting: &Counting<'_>,
    steps: &mut Steps<L>,
) -> Result<Folded<R>, OutOfMemory>
    requires keys { AllByRecursion (HoldsKeysOf A.keys_of (rows.now.held.now ++ rows.now.added.now)) dimensions.now }
    requires live { AllByRecursion (λ held. is_taken (held_ids dimensions.now) held.dimension.0 ≡ true) groups.now }
    requires places { AllByRecursion (HoldsPlacesOf A.keys_of G.rounded (live_dimensions dimensions.now) rows.now.held.now) groups.now }
    requires group_suit { AllByRecursion (λ held. SuitAll (R.fits_to held.group.reducer) (rows.now.held.now ++ rows.now.added.now)) groups.now }
    requires whole_suit { AllByRecursion (λ held. SuitAll (R.fits_to held.reducer) (rows.now.held.now ++ rows.now.added.now)) wholes.now }
    requires few { length (rows.now.held.now ++ rows.now.added.now) ≤ ROWS }
    requires marks { HasMarks counting.now (length (rows.now.held.now ++ rows.now.added.now)) }
    ensures groups { IfOk result (λ folded. AreFoldedFor A.keys_of P.says_to G.rounded R.meaning_of R.folding (dimensions_then counting.now (live_dimensions dimensions.now)) (rows_then counting.now (rows.now.held.now ++ rows.now.added.now)) groups.now folded.groups.items) }
    ensures wholes { IfOk result (λ folded. AreValuesFor A.keys_of P.says_to R.meaning_of R.folding (dimensions_then counting.now (live_dimensions dimensions.now)) (rows_then counting.now (rows.now.held.now ++ rows.now.added.now)) wholes.now folded.wholes.items) }
{
    Ok(Folded {
        groups: fold_groups(alloc, dimensions, groups, rows, counting, steps)?,
        wholes: fold_wholes(alloc, dimensions, wholes, rows, counting, steps)?,
    })
}

/// Folds each group anew.
fn fold_groups<A: Accessor, G: Rounding, P: Predicate, R: Reducer, L: Ledger>(
    alloc: Global,
    dimensions: &[Dimension<A, P>],
    groups: &[Grouping<G, Group<R>>],
    rows: &Rows<'_>,
    counting: &Counting<'_>,
    steps: &mut Steps<L>,
) -> Result<Vec<Group<R>>, OutOfMemory>
    requires keys { AllByRecursion (HoldsKeysOf A.keys_of (rows.now.held.now ++ rows.now.added.now)) dimensions.now }
    requires live { AllByRecursion (λ held. is_taken (held_ids dimensions.now) held.dimension.0 ≡ true) groups.now }
    requires places { AllByRecursion (HoldsPlacesOf A.keys_of G.rounded (live_dimensions dimensions.now) rows.now.held.now) groups.now }
    requires suit { AllByRecursion (λ held. SuitAll (R.fits_to held.group.reducer) (rows.now.held.now ++ rows.now.added.now)) groups.now }
    requires few { length (rows.now.held.now ++ rows.now.added.now) ≤ ROWS }
    requires marks { HasMarks counting.now (length (rows.now.held.now ++ rows.now.added.now)) }
    ensures { IfOk result (λ folded. AreFoldedFor A.keys_of P.says_to G.rounded R.meaning_of R.folding (dimensions_then counting.now (live_dimensions dimensions.now)) (rows_then counting.now (rows.now.held.now ++ rows.now.added.now)) groups.now folded.items) }
{
    let mut folded = Vec::with_capacity(alloc, groups.len())?;
    for group in groups {
        folded.push(refold_group(alloc, dimensions, group, rows, counting, steps)?)?;
    }
    Ok(folded)
}

/// Folds a group anew: it keeps its keys and the places of the rows that are held.
fn refold_group<A: Accessor, G: Rounding, P: Predicate, R: Reducer, L: Ledger>(
    alloc: Global,
    dimensions: &[Dimension<A, P>],
    group: &Grouping<G, Group<R>>,
    rows: &Rows<'_>,
    counting: &Counting<'_>,
    steps: &mut Steps<L>,
) -> Result<Group<R>, OutOfMemory>
    requires keys { AllByRecursion (HoldsKeysOf A.keys_of (rows.now.held.now ++ rows.now.added.now)) dimensions.now }
    requires live { is_taken (held_ids dimensions.now) group.now.dimension.0 ≡ true }
    requires places { HoldsPlacesOf A.keys_of G.rounded (live_dimensions dimensions.now) rows.now.held.now group.now }
    requires suit { SuitAll (R.fits_to group.now.group.reducer) (rows.now.held.now ++ rows.now.added.now) }
    requires few { length (rows.now.held.now ++ rows.now.added.now) ≤ ROWS }
    requires marks { HasMarks counting.now (length (rows.now.held.now ++ rows.now.added.now)) }
    ensures { IfOk result (λ folded. IsFoldedFor A.keys_of P.says_to G.rounded R.meaning_of R.folding (dimensions_then counting.now (live_dimensions dimensions.now)) (rows_then counting.now (rows.now.held.now ++ rows.now.added.now)) group.now folded) }
{
    let Some(own) = dimension_place(dimensions, group.dimension) else {
        // The dimension of a live group is live.
        unreachable!()
    };
    let emptied = group.group.emptied()?;
    fold_group(
        alloc,
        dimensions,
        own,
        &group.rounding,
        emptied,
        rows,
        counting,
        steps,
    )
}

/// Folds a group that has no rows yet, under the dimension at a place: it has the places of the rows that are held, and
/// those of the rows that are added enter it.
pub fn fold_group<A: Accessor, G: Rounding, P: Predicate, R: Reducer, L: Ledger>(
    alloc: Global,
    dimensions: &[Dimension<A, P>],
    own: usize,
    rounding: &G,
    group: Group<R>,
    rows: &Rows<'_>,
    counting: &Counting<'_>,
    steps: &mut Steps<L>,
) -> Result<Group<R>, OutOfMemory>
    requires own { own < length dimensions.now }
    requires keys { AllByRecursion (HoldsKeysOf A.keys_of (rows.now.held.now ++ rows.now.added.now)) dimensions.now }
    requires places { group.places ≡ places_under A.keys_of (G.rounded rounding.now) (slice_get (live_dimensions dimensions.now) own) rows.now.held.now }
    requires none { meanings R.meaning_of group.entries ≡ map (λ key. (key, (R.folding group.reducer).initial)) (keys_in group.places) }
    requires suit { SuitAll (R.fits_to group.reducer) (rows.now.held.now ++ rows.now.added.now) }
    requires few { length (rows.now.held.now ++ rows.now.added.now) ≤ ROWS }
    requires marks { HasMarks counting.now (length (rows.now.held.now ++ rows.now.added.now)) }
    ensures reducer { IfOk result (λ folded. folded.reducer ≡ group.reducer) }
    ensures places { IfOk result (λ folded. folded.places ≡ places_under A.keys_of (G.rounded rounding.now) (slice_get (live_dimensions dimensions.now) own) (rows_then counting.now (rows.now.held.now ++ rows.now.added.now))) }
    ensures entries { IfOk result (λ folded. meanings R.meaning_of folded.entries ≡ entries_at A.keys_of P.says_to (dimensions_then counting.now (live_dimensions dimensions.now)) (rows_then counting.now (rows.now.held.now ++ rows.now.added.now)) (G.rounded rounding.now) (R.folding group.reducer) own) }
{
    let mut group = group;
    enter_added(
        alloc,
        rounding,
        &dimensions[own].keys,
        &mut group,
        rows,
        steps,
    )?;
    count_rows(alloc, dimensions, own, group, rows, counting, steps)
}

/// Adds the rows that count to a group that has the places of all and no rows yet. The places of rows that are gone go.
fn count_rows<A: Accessor, P: Predicate, R: Reducer, L: Ledger>(
    alloc: Global,
    dimensions: &[Dimension<A, P>],
    own: usize,
    group: Group<R>,
    rows: &Rows<'_>,
    counting: &Counting<'_>,
    steps: &mut Steps<L>,
) -> Result<Group<R>, OutOfMemory>
    requires own { own < length dimensions.now }
    requires keys { AllByRecursion (HoldsKeysOf A.keys_of (rows.now.held.now ++ rows.now.added.now)) dimensions.now }
    requires places { length group.places ≡ length (rows.now.held.now ++ rows.now.added.now) }
    requires none { meanings R.meaning_of group.entries ≡ map (λ key. (key, (R.folding group.reducer).initial)) (keys_in group.places) }
    requires suit { SuitAll (R.fits_to group.reducer) (rows.now.held.now ++ rows.now.added.now) }
    requires few { length (rows.now.held.now ++ rows.now.added.now) ≤ ROWS }
    requires marks { HasMarks counting.now (length (rows.now.held.now ++ rows.now.added.now)) }
    ensures reducer { IfOk result (λ folded. folded.reducer ≡ group.reducer) }
    ensures places { IfOk result (λ folded. folded.places ≡ rows_then counting.now group.places) }
    ensures entries { IfOk result (λ folded. (keys : List Cell → List Key) → group.places ≡ map keys (rows.now.held.now ++ rows.now.added.now) → meanings R.meaning_of folded.entries ≡ group_entries key_cmp keys (R.folding group.reducer) (dimensions_of A.keys_of P.says_to (dimensions_then counting.now (live_dimensions dimensions.now))) own (rows_then counting.now (rows.now.held.now ++ rows.now.added.now))) }
{
    let count = rows.held.len() + rows.added.len();
    let counts = counts(alloc, dimensions, Some(own), counting, count)?;
    let mut group = group;
    add_rows(&mut group, rows, counts.as_slice(), steps)?;
    match counting {
        Counting::Passing => {}
        Counting::Every => {}
        Counting::Staying(gone) => group.retire(gone),
    }
    Ok(group)
}

/// Folds one whole over rows.
pub fn fold_new_whole<A: Accessor, P: Predicate, R: Reducer, L: Ledger>(
    alloc: Global,
    dimensions: &[Dimension<A, P>],
    reducer: &R,
    rows: &Rows<'_>,
    steps: &mut Steps<L>,
) -> Result<R::Value, OutOfMemory>
    requires keys { AllByRecursion (HoldsKeysOf A.keys_of (rows.now.held.now ++ rows.now.added.now)) dimensions.now }
    requires suit { SuitAll (R.fits_to reducer.now) (rows.now.held.now ++ rows.now.added.now) }
    requires few { length (rows.now.held.now ++ rows.now.added.now) ≤ ROWS }
    ensures { IfOk result (λ value. R.meaning_of value ≡ whole_value (R.folding reducer.now) (dimensions_of A.keys_of P.says_to (live_dimensions dimensions.now)) (rows.now.held.now ++ rows.now.added.now)) }
{
    let count = rows.held.len() + rows.added.len();
    let counts = counts(alloc, dimensions, None, &Counting::Passing, count)?;
    fold_whole(alloc, reducer, rows, counts.as_slice(), steps)
}

/// Folds each whole over rows.
fn fold_wholes<A: Accessor, P: Predicate, R: Reducer, L: Ledger>(
    alloc: Global,
    dimensions: &[Dimension<A, P>],
    wholes: &[Whole<R, R::Value>],
    rows: &Rows<'_>,
    counting: &Counting<'_>,
    steps: &mut Steps<L>,
) -> Result<Vec<R::Value>, OutOfMemory>
    requires keys { AllByRecursion (HoldsKeysOf A.keys_of (rows.now.held.now ++ rows.now.added.now)) dimensions.now }
    requires suit { AllByRecursion (λ held. SuitAll (R.fits_to held.reducer) (rows.now.held.now ++ rows.now.added.now)) wholes.now }
    requires few { length (rows.now.held.now ++ rows.now.added.now) ≤ ROWS }
    requires marks { HasMarks counting.now (length (rows.now.held.now ++ rows.now.added.now)) }
    ensures { IfOk result (λ folded. AreValuesFor A.keys_of P.says_to R.meaning_of R.folding (dimensions_then counting.now (live_dimensions dimensions.now)) (rows_then counting.now (rows.now.held.now ++ rows.now.added.now)) wholes.now folded.items) }
{
    let count = rows.held.len() + rows.added.len();
    let counts = counts(alloc, dimensions, None, counting, count)?;
    let mut folded = Vec::with_capacity(alloc, wholes.len())?;
    for whole in wholes {
        folded.push(fold_whole(alloc, &whole.reducer, rows, counts.as_slice(), steps)?)?;
    }
    Ok(folded)
}
