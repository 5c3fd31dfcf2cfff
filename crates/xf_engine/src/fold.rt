//! One group, or one whole, folded over rows from nothing.
ghost use Rattle.std.specs.Prelude.{◌≡◌, ◌+◌, ◌++◌, ◌<◌, ◌≤◌, IfOk, OnOk, Some, drop, length, map, slice_get};
ghost use Rattle.xf_base.specs.Key.{key_cmp};
ghost use Rattle.xf_base.specs.declared.limits.TheConstants.Limits.{ROWS};
ghost use Rattle.xf_engine.specs.Folding.{counted, folded_entries};
ghost use Rattle.xf_group.specs.Admitted.{SuitAll};
ghost use Rattle.xf_group.specs.Group.{keys_in, meanings};
ghost use Rattle.xf_model.specs.Group.{distinct_keys, fold_of};

use crate::rounded::rounded_lists;
use std::alloc::Global;
use std::sync::ledger::Ledger;
use xf_access::Rounding;
use xf_base::{Key, OutOfMemory, Row, RowList, Steps};
use xf_group::Group;
use xf_lists::Lists;
use xf_reduce::Reducer;

/// The rows that are held and those that come after them.
#[derive(Clone, Copy)]
pub struct Rows<'a> {
    pub held: &'a RowList,
    pub added: &'a RowList,
}

impl Rows<'_> {
    /// The row at a place: those that are added come after those that are held.
    fn row(&self, place: usize) -> &Row
        requires { place < length self.now.held.now + length self.now.added.now }
        ensures { slice_get (self.now.held.now ++ self.now.added.now) place ≡ Some result.now }
    {
        let count = self.held.len();
        if place < count {
            &self.held.as_slice()[place]
        } else {
            &self.added.as_slice()[place - count]
        }
    }
}

/// Enters the places of the rows that are added into a group that has no rows yet. `keys` are those of all rows.
pub fn enter_added<G: Rounding, R: Reducer, L: Ledger>(
    alloc: Global,
    rounding: &G,
    keys: &Lists<Key>,
    group: &mut Group<R>,
    rows: &Rows<'_>,
    steps: &mut Steps<L>,
) -> Result<(), OutOfMemory>
    requires rows { SuitAll (R.fits_to group.old.reducer) (rows.now.held.now ++ rows.now.added.now) }
    requires keys { length keys.now ≡ length rows.now.held.now + length rows.now.added.now }
    requires none { meanings R.meaning_of group.old.entries ≡ map (λ key. (key, (R.folding group.old.reducer).initial)) (keys_in group.old.places) }
    ensures reducer { OnOk result (group.new.reducer ≡ group.old.reducer) }
    ensures places { OnOk result (group.new.places ≡ group.old.places ++ map (λ own. distinct_keys key_cmp (map (G.rounded rounding.now) own)) (drop (length rows.now.held.now) keys.now)) }
    ensures none { OnOk result (meanings R.meaning_of group.new.entries ≡ map (λ key. (key, (R.folding group.new.reducer).initial)) (keys_in group.new.places)) }
{
    let lists = rounded_lists(alloc, rounding, keys, rows.held.len())?;
    group.admit(rows.added, lists.as_slice(), steps)?;
    Ok(())
}

/// Adds the rows that count to a group that has the places of all and no rows yet.
pub fn add_rows<R: Reducer, L: Ledger>(
    group: &mut Group<R>,
    rows: &Rows<'_>,
    counts: &[bool],
    steps: &mut Steps<L>,
) -> Result<(), OutOfMemory>
    requires rows { SuitAll (R.fits_to group.old.reducer) (rows.now.held.now ++ rows.now.added.now) }
    requires few { length rows.now.held.now + length rows.now.added.now ≤ ROWS }
    requires counts { length counts.now ≡ length rows.now.held.now + length rows.now.added.now }
    requires places { length group.old.places ≡ length rows.now.held.now + length rows.now.added.now }
    requires none { meanings R.meaning_of group.old.entries ≡ map (λ key. (key, (R.folding group.old.reducer).initial)) (keys_in group.old.places) }
    ensures reducer { OnOk result (group.new.reducer ≡ group.old.reducer) }
    ensures places { OnOk result (group.new.places ≡ group.old.places) }
    ensures meanings { OnOk result (meanings R.meaning_of group.new.entries ≡ folded_entries (R.folding group.old.reducer) (rows.now.held.now ++ rows.now.added.now) group.old.places counts.now) }
{
    for place in 0..counts.len() {
        if counts[place] {
            let row = rows.row(place);
            group.make_ready(place, row)?;
            group.change(place, row, true, steps);
        }
    }
    Ok(())
}

/// The value of the rows that count.
pub fn fold_whole<R: Reducer, L: Ledger>(
    alloc: Global,
    reducer: &R,
    rows: &Rows<'_>,
    counts: &[bool],
    steps: &mut Steps<L>,
) -> Result<R::Value, OutOfMemory>
    requires rows { SuitAll (R.fits_to reducer.now) (rows.now.held.now ++ rows.now.added.now) }
    requires few { length rows.now.held.now + length rows.now.added.now ≤ ROWS }
    requires counts { length counts.now ≡ length rows.now.held.now + length rows.now.added.now }
    ensures { IfOk result (λ value. R.meaning_of value ≡ fold_of (R.folding reducer.now) (counted (rows.now.held.now ++ rows.now.added.now) counts.now)) }
{
    let mut value = reducer.initial(alloc)?;
    take_rows(reducer, &mut value, rows, counts, steps)?;
    Ok(value)
}

/// Adds the rows that count to the value of no rows.
fn take_rows<R: Reducer, L: Ledger>(
    reducer: &R,
    value: &mut R::Value,
    rows: &Rows<'_>,
    counts: &[bool],
    steps: &mut Steps<L>,
) -> Result<(), OutOfMemory>
    requires rows { SuitAll (R.fits_to reducer.now) (rows.now.held.now ++ rows.now.added.now) }
    requires few { length rows.now.held.now + length rows.now.added.now ≤ ROWS }
    requires counts { length counts.now ≡ length rows.now.held.now + length rows.now.added.now }
    requires none { R.meaning_of value.old ≡ (R.folding reducer.now).initial }
    ensures { OnOk result (R.meaning_of value.new ≡ fold_of (R.folding reducer.now) (counted (rows.now.held.now ++ rows.now.added.now) counts.now)) }
{
    for place in 0..counts.len() {
        if counts[place] {
            let row = rows.row(place);
            reducer.prepare(value, row)?;
            reducer.add(value, row, steps);
        }
    }
    Ok(())
}
