//! A group: what is kept, and its calls.
ghost use Rattle.std.specs.Prelude.{◌≡◌, ◌+◌, ◌*◌, ◌<◌, ◌≤◌, [], ◌++◌, IfOk, OnErr, OnOk, Some, true, filter, flat_map, length, map, option_copied, slice_get, sum_by, take};
ghost use Rattle.std.specs.List.{AllByRecursion};
ghost use Rattle.std.specs.List.Sorted.{IsStrictlySortedBy};
ghost use Rattle.std.specs.Ordering.{nat_cmp};
ghost use Rattle.xf_base.specs.Gone.{kept};
ghost use Rattle.xf_base.specs.Key.{key_cmp};
ghost use Rattle.xf_group.specs.Admitted.{AreReady, IsReadyAt, StayReady, StayUncalled, SuitAll};
ghost use Rattle.xf_group.specs.Changed.{AreChanged, IsChanged, MayChange, MayChangeAll, changed_meaning};
ghost use Rattle.xf_group.specs.ChangedAt.{AreChangedAt, MayChangeAt};
ghost use Rattle.xf_group.specs.Group.{IsGroup, keys_at, keys_in, meanings, meanings_for, ranked_positions, value_at};
ghost use Rattle.xf_group.specs.Ranks.{ranks_at};
ghost use Rattle.xf_model.specs.Digits.{digits};
ghost use Rattle.xf_model.specs.Laws.{is_among};
ghost use Rattle.xf_reduce.specs.Laws.{Suits};

use crate::admit::enter;
use crate::entry::{Entry, GroupEntry};
use crate::ready::{empty_entries, prepare_each};
use crate::search::find;
use crate::unused::drop_unused;
use std::alloc::Global;
use std::cmp::Reverse;
use std::marker::Model;
use std::sync::ledger::Ledger;
use xf_base::{Gone, Key, KeyList, OutOfMemory, Row, RowList, Steps};
use xf_lists::Lists;
use xf_reduce::Reducer;

/// The keys of records in ascending order, each with the value of a reducer, and for each record's place its keys.
#[derive(Drop)]
pub struct Group<R: Reducer> {
    alloc: Global,
    reducer: R,
    entries: Vec<Entry<R::Value>>,
    /// For each place the positions of its keys among the entries.
    places: Lists<usize>,
    /// Room to count in, as long as the entries at least, so that `retire` takes no memory.
    numbers: Vec<usize>,
}

impl<R: Reducer> Model for Group<R> {
    ghost use Rattle.std.specs.Prelude.{length};
    ghost use Rattle.xf_group.specs.Group.{Grouped};
    ghost use Rattle.xf_group.specs.Held.{HoldsGroup, grouped};

    ghost Value = { Grouped R R.Value };

    ghost view = { λ group. grouped group.reducer group.entries.items group.places };

    ghost invariant = { λ group. HoldsGroup group.reducer group.entries.items group.places (length group.numbers.items) };
}

impl<R: Reducer> Group<R> {
    /// A group without places. It takes no memory yet.
    pub fn new(alloc: Global, reducer: R) -> Group<R>
        ensures reducer { result.reducer ≡ reducer }
        ensures entries { result.entries ≡ [] }
        ensures places { result.places ≡ [] }
    {
        Group {
            alloc,
            reducer,
            entries: Vec::new(alloc),
            places: Lists::new(alloc),
            numbers: Vec::new(alloc),
        }
    }

    /// True of every group: the clause tells a proof what each of them meets.
    pub fn is_sound(&self) -> bool
        ensures answer { result ≡ true }
        ensures sound { IsGroup self.now }
    {
        self.entries.len() <= self.numbers.len()
    }

    /// The number of keys.
    pub fn size(&self) -> usize
        ensures { result ≡ length self.now.entries }
    {
        self.entries.len()
    }

    /// The reducer of the values.
    pub fn reducer(&self) -> &R
        ensures { result.now ≡ self.now.reducer }
    {
        &self.reducer
    }

    /// The key at a position from 0 on, in ascending order, with its value. It costs one step.
    pub fn at<L: Ledger>(&self, i: usize, steps: &mut Steps<L>) -> GroupEntry<'_, R::Value>
        requires { i < length self.now.entries }
        ensures entry { slice_get self.now.entries i ≡ Some (record { key = result.key.now; value = result.value.now }) }
        ensures cost { steps.new ≡ steps.old + 1 }
    {
        steps.tick();
        let entries = self.entries.as_slice();
        let entry = &entries[i];
        GroupEntry {
            key: &entry.key,
            value: &entry.value,
        }
    }

    /// The value of a key, or None where no place has the key. It costs a step for each comparison, at most as many as the
    /// number of keys has binary digits.
    pub fn value<L: Ledger>(&self, key: &Key, steps: &mut Steps<L>) -> Option<&R::Value>
        ensures value { option_copied result ≡ value_at self.now.entries key.now }
        ensures cost { steps.new ≤ steps.old + digits (length self.now.entries) }
    {
        let position = find(self.entries.as_slice(), key, steps)?;
        let entries = self.entries.as_slice();
        Some(&entries[position].value)
    }

    /// The positions of the first `k` keys by the rank of their values in a field, the greatest first, and where ranks are
    /// equal by key. It costs a step for each key.
    pub fn top<L: Ledger>(
        &self,
        k: usize,
        field: u8,
        steps: &mut Steps<L>,
    ) -> Result<Vec<usize>, OutOfMemory>
        requires { field < R.field_count self.now.reducer }
        ensures positions { IfOk result (λ v. v.items ≡ take k (ranked_positions (λ value. R.rank_of self.now.reducer (R.meaning_of value) field) self.now.entries)) }
        ensures cost { steps.new ≤ steps.old + length self.now.entries }
    {
        let entries = self.entries.as_slice();
        let mut ranks = ranks_of(self.alloc, &self.reducer, entries, field, steps)?;
        ranks.sort_unstable();
        ranks.truncate(k);
        positions_of(self.alloc, ranks.as_slice())
    }

    /// Enters new places after the old ones, with the keys of each. Keys that are new get the value of no rows, and the
    /// value of each key of a new place is made ready for its row; no row is added, and each key's value tells as many
    /// calls as it did. Finding a key among the group's own costs a step for each comparison; sorting and merging the new
    /// keys costs none. Only want of memory is an error. Without memory the keys and places are as before; no value means
    /// anything else or is ready for fewer rows.
    pub fn admit<L: Ledger>(
        &mut self,
        rows: &RowList,
        keys: &[KeyList],
        steps: &mut Steps<L>,
    ) -> Result<(), OutOfMemory>
        requires rows { SuitAll (R.fits_to self.old.reducer) rows.now }
        requires each { length keys.now ≡ length rows.now }
        requires ascend { AllByRecursion (IsStrictlySortedBy key_cmp) keys.now }
        ensures reducer { self.new.reducer ≡ self.old.reducer }
        ensures places { OnOk result (self.new.places ≡ self.old.places ++ keys.now) }
        ensures meanings { OnOk result (meanings R.meaning_of self.new.entries ≡ meanings_for R.meaning_of (R.folding self.old.reducer).initial self.old.entries self.new.places) }
        ensures ready { OnOk result (AreReady (R.IsReady self.old.reducer) self.new.entries rows.now keys.now) }
        ensures kept { StayReady (R.IsReady self.old.reducer) self.old.entries self.new.entries }
        ensures calls { StayUncalled R.calls self.old.entries self.new.entries }
        ensures same_places { OnErr result (self.new.places ≡ self.old.places) }
        ensures same_meanings { OnErr result (meanings R.meaning_of self.new.entries ≡ meanings R.meaning_of self.old.entries) }
        ensures cost { OnOk result (steps.new ≤ steps.old + (digits (length self.new.entries) + 1) * sum_by length keys.now) }
    {
        let count = self.places.len();
        let entered = enter(
            self.alloc,
            &self.reducer,
            &mut self.entries,
            &mut self.numbers,
            &mut self.places,
            rows.as_slice(),
            keys,
            steps,
        );
        if entered.is_err() {
            self.places.truncate(count);
            drop_unused(&mut self.entries, &mut self.places, &mut self.numbers);
            return Err(OutOfMemory);
        }
        Ok(())
    }

    /// A group with the same keys and places, whose values are those of no rows. It takes no step. Only want of memory is an
    /// error.
    pub fn emptied(&self) -> Result<Group<R>, OutOfMemory>
        ensures reducer { IfOk result (λ group. group.reducer ≡ self.now.reducer) }
        ensures places { IfOk result (λ group. group.places ≡ self.now.places) }
        ensures none { IfOk result (λ group. meanings R.meaning_of group.entries ≡ map (λ key. (key, (R.folding self.now.reducer).initial)) (keys_in self.now.places)) }
    {
        let reducer = self.reducer.copy(self.alloc)?;
        let entries = empty_entries(self.alloc, &reducer, self.entries.as_slice())?;
        Ok(Group {
            alloc: self.alloc,
            reducer,
            entries,
            places: self.places.copy(self.alloc)?,
            numbers: self.numbers.as_slice().to_vec(self.alloc)?,
        })
    }

    /// Makes the value of each key of a place ready for a row, as `admit` did for the row with which the place came. No
    /// value means anything else, is ready for fewer rows or tells more calls, without memory too. It takes no step. Only
    /// want of memory is an error.
    pub fn make_ready(&mut self, place: usize, row: &Row) -> Result<(), OutOfMemory>
        requires place { place < length self.old.places }
        requires row { Suits (R.fits_to self.old.reducer) row.now }
        ensures reducer { self.new.reducer ≡ self.old.reducer }
        ensures places { self.new.places ≡ self.old.places }
        ensures ready { OnOk result (AllByRecursion (λ key. IsReadyAt (R.IsReady self.old.reducer) self.new.entries key row.now) (keys_at self.old place)) }
        ensures meanings { meanings R.meaning_of self.new.entries ≡ meanings R.meaning_of self.old.entries }
        ensures kept { StayReady (R.IsReady self.old.reducer) self.old.entries self.new.entries }
        ensures calls { StayUncalled R.calls self.old.entries self.new.entries }
    {
        prepare_each(
            &self.reducer,
            self.entries.as_mut_slice(),
            self.places.list(place),
            row,
        )
    }

    /// Adds the row of a place to the value of each of its keys, or takes it back, at the cost of one step for each key.
    pub fn change<L: Ledger>(&mut self, place: usize, row: &Row, on: bool, steps: &mut Steps<L>)
        requires place { place < length self.old.places }
        requires may { MayChangeAll R.meaning_of (R.fits_to self.old.reducer) (R.folding self.old.reducer) (R.IsReady self.old.reducer) (keys_at self.old place) on row.now self.old.entries }
        ensures reducer { self.new.reducer ≡ self.old.reducer }
        ensures places { self.new.places ≡ self.old.places }
        ensures changed { AreChanged R.meaning_of (λ meaning. changed_meaning (R.folding self.old.reducer) (R.undo self.old.reducer) on meaning row.now) (R.IsReady self.old.reducer) R.calls (keys_at self.old place) self.old.entries self.new.entries }
        ensures cost { steps.new ≡ steps.old + length (keys_at self.old place) }
    {
        change_each(
            &self.reducer,
            self.entries.as_mut_slice(),
            self.places.list(place),
            row,
            on,
            steps,
        );
    }

    /// Takes the places away that are gone, and the keys that no place has any more. The values of the keys that stay do
    /// not change. It takes no memory and no step.
    pub fn retire(&mut self, gone: &Gone)
        requires { length gone.now ≡ length self.old.places }
        ensures reducer { self.new.reducer ≡ self.old.reducer }
        ensures places { self.new.places ≡ kept gone.now self.old.places }
        ensures entries { self.new.entries ≡ filter (λ entry. is_among key_cmp (flat_map (λ keys. keys) (kept gone.now self.old.places)) entry.key) self.old.entries }
    {
        self.places.retain(gone);
        drop_unused(&mut self.entries, &mut self.places, &mut self.numbers);
    }
}

/// Adds a row to the values at some positions, or takes it back.
fn change_each<R: Reducer, L: Ledger>(
    reducer: &R,
    entries: &mut [Entry<R::Value>],
    positions: &[usize],
    row: &Row,
    on: bool,
    steps: &mut Steps<L>,
)
    requires ascend { IsStrictlySortedBy nat_cmp positions.now }
    requires within { AllByRecursion (λ position. position < length entries.old) positions.now }
    requires may { MayChangeAt R.meaning_of (R.fits_to reducer.now) (R.folding reducer.now) (R.IsReady reducer.now) positions.now on row.now entries.old }
    ensures changed { AreChangedAt R.meaning_of (λ meaning. changed_meaning (R.folding reducer.now) (R.undo reducer.now) on meaning row.now) (R.IsReady reducer.now) R.calls positions.now entries.old entries.new }
    ensures cost { steps.new ≡ steps.old + length positions.now }
{
    for position in positions {
        change_one(reducer, &mut entries[*position].value, row, on, steps);
    }
}

/// Adds a row to a value, or takes it back.
fn change_one<R: Reducer, L: Ledger>(
    reducer: &R,
    value: &mut R::Value,
    row: &Row,
    on: bool,
    steps: &mut Steps<L>,
)
    requires may { MayChange (R.fits_to reducer.now) (R.folding reducer.now) on (R.meaning_of value.old) row.now }
    requires ready { R.IsReady reducer.now value.old row.now }
    ensures changed { IsChanged R.meaning_of (λ meaning. changed_meaning (R.folding reducer.now) (R.undo reducer.now) on meaning row.now) (R.IsReady reducer.now) R.calls value.old value.new }
    ensures cost { steps.new ≡ steps.old + 1 }
{
    if on {
        reducer.add(value, row, steps);
    } else {
        reducer.remove(value, row, steps);
    }
}

/// For each entry the rank of its value in a field, with its position.
fn ranks_of<R: Reducer, L: Ledger>(
    alloc: Global,
    reducer: &R,
    entries: &[Entry<R::Value>],
    field: u8,
    steps: &mut Steps<L>,
) -> Result<Vec<(Reverse<i128>, usize)>, OutOfMemory>
    requires { field < R.field_count reducer.now }
    ensures ranks { IfOk result (λ v. map (λ at. (at.0.0, at.1)) v.items ≡ ranks_at (λ value. R.rank_of reducer.now (R.meaning_of value) field) entries.now) }
    ensures cost { steps.new ≤ steps.old + length entries.now }
{
    let mut ranks = Vec::with_capacity(alloc, entries.len())?;
    for (position, entry) in entries.iter().enumerate() {
        steps.tick();
        ranks.push((Reverse(reducer.rank(&entry.value, field)), position))?;
    }
    Ok(ranks)
}

/// The positions of ranks.
fn positions_of(alloc: Global, ranks: &[(Reverse<i128>, usize)]) -> Result<Vec<usize>, OutOfMemory>
    ensures { IfOk result (λ v. v.items ≡ map (λ at. at.1) ranks.now) }
{
    let mut positions = Vec::with_capacity(alloc, ranks.len())?;
    for (_, position) in ranks {
        positions.push(*position)?;
    }
    Ok(positions)
}
