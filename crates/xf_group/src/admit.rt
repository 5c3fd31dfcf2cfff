//! New places: their keys among the group's own, and values that are ready for their rows.
ghost use Rattle.std.specs.Prelude.{◌≡◌, ◌+◌, ◌*◌, ◌<◌, ◌≤◌, ◌^◌, [], ◌++◌, IfOk, OnOk, Some, true, filter, flat_map, length, map, not, slice_get, sum_by, take};
ghost use Rattle.std.specs.List.{AllByRecursion, prefix_len};
ghost use Rattle.std.specs.List.Sorted.{IsPermutation, IsSortedByKey, IsStrictlySortedBy};
ghost use Rattle.std.specs.Ordering.{is_lt};
ghost use Rattle.xf_base.specs.Key.{key_cmp};
ghost use Rattle.xf_group.specs.Admitted.{AreReady, IsReadyAt, SameMeanings, StayReady, SuitAll};
ghost use Rattle.xf_group.specs.Fresh.{AreKept, KeepCalls, fresh_keys, new_positions};
ghost use Rattle.xf_group.specs.Group.{meanings};
ghost use Rattle.xf_group.specs.Held.{AreWithin, key_lists, keys_at_positions, keys_of};
ghost use Rattle.xf_model.specs.Digits.{digits};
ghost use Rattle.xf_model.specs.Group.{distinct_keys};
ghost use Rattle.xf_model.specs.Laws.{is_among};
ghost use Rattle.xf_reduce.specs.Laws.{Suits};

use crate::entry::Entry;
use crate::search::find;
use std::alloc::Global;
use std::sync::ledger::Ledger;
use xf_base::{Key, KeyList, OutOfMemory, Row, Steps};
use xf_lists::Lists;
use xf_reduce::Reducer;

/// Enters new places after the old ones. Without memory the first of the new places may stand, and keys that no place has;
/// the caller takes both away.
pub fn enter<R: Reducer, L: Ledger>(
    alloc: Global,
    reducer: &R,
    entries: &mut Vec<Entry<R::Value>>,
    numbers: &mut Vec<usize>,
    places: &mut Lists<usize>,
    rows: &[Row],
    keys: &[KeyList],
    steps: &mut Steps<L>,
) -> Result<(), OutOfMemory>
    requires sorted { IsStrictlySortedBy key_cmp (keys_of entries.old.items) }
    requires within { AreWithin (length entries.old.items) places.old }
    requires room { length entries.old.items ≤ length numbers.old.items }
    requires rows { SuitAll (R.fits_to reducer.now) rows.now }
    requires each { length keys.now ≡ length rows.now }
    requires ascend { AllByRecursion (IsStrictlySortedBy key_cmp) keys.now }
    ensures places { OnOk result (key_lists (keys_of entries.new.items) places.new ≡ key_lists (keys_of entries.old.items) places.old ++ keys.now) }
    ensures keys { OnOk result (keys_of entries.new.items ≡ distinct_keys key_cmp (keys_of entries.old.items ++ flat_map (λ own. own) keys.now)) }
    ensures ready { OnOk result (AreReady (R.IsReady reducer.now) entries.new.items rows.now keys.now) }
    ensures cost { OnOk result (steps.new ≤ steps.old + (digits (length entries.new.items) + 1) * sum_by length keys.now) }
    ensures begun { key_lists (keys_of entries.new.items) (take (length places.old) places.new) ≡ key_lists (keys_of entries.old.items) places.old }
    ensures meanings { SameMeanings R.meaning_of (R.folding reducer.now).initial entries.old.items entries.new.items }
    ensures kept { StayReady (R.IsReady reducer.now) entries.old.items entries.new.items }
    ensures calls { KeepCalls R.calls entries.old.items entries.new.items }
    ensures sorted { IsStrictlySortedBy key_cmp (keys_of entries.new.items) }
    ensures within { AreWithin (length entries.new.items) places.new }
    ensures room { length entries.new.items ≤ length numbers.new.items }
{
    enter_keys(alloc, reducer, entries, numbers, places, keys)?;
    enter_places(alloc, reducer, entries, places, rows, keys, steps)
}

/// Enters the keys that are not there yet, each with the value of no rows, and renumbers the positions of the old places.
/// Without memory all is as before.
fn enter_keys<R: Reducer>(
    alloc: Global,
    reducer: &R,
    entries: &mut Vec<Entry<R::Value>>,
    numbers: &mut Vec<usize>,
    places: &mut Lists<usize>,
    keys: &[KeyList],
) -> Result<(), OutOfMemory>
    requires sorted { IsStrictlySortedBy key_cmp (keys_of entries.old.items) }
    requires within { AreWithin (length entries.old.items) places.old }
    requires room { length entries.old.items ≤ length numbers.old.items }
    ensures keys { OnOk result (keys_of entries.new.items ≡ distinct_keys key_cmp (keys_of entries.old.items ++ flat_map (λ own. own) keys.now)) }
    ensures places { key_lists (keys_of entries.new.items) places.new ≡ key_lists (keys_of entries.old.items) places.old }
    ensures each { length places.new ≡ length places.old }
    ensures meanings { SameMeanings R.meaning_of (R.folding reducer.now).initial entries.old.items entries.new.items }
    ensures kept { StayReady (R.IsReady reducer.now) entries.old.items entries.new.items }
    ensures calls { KeepCalls R.calls entries.old.items entries.new.items }
    ensures sorted { IsStrictlySortedBy key_cmp (keys_of entries.new.items) }
    ensures within { AreWithin (length entries.new.items) places.new }
    ensures room { length entries.new.items ≤ length numbers.new.items }
{
    let fresh = fresh_keys(alloc, entries.as_slice(), keys)?;
    if fresh.is_empty() {
        return Ok(());
    }
    let order = new_positions(alloc, entries.as_slice(), fresh.as_slice())?;
    let mut added = new_entries(alloc, reducer, fresh.as_slice())?;
    make_room(numbers, entries.len() + added.len())?;
    entries.append(&mut added)?;
    sort_entries(entries);
    places.renumber(order.as_slice());
    Ok(())
}

/// The keys of the lists that are not among the entries, ascending and each once.
fn fresh_keys<'a, V>(
    alloc: Global,
    entries: &[Entry<V>],
    keys: &'a [KeyList],
) -> Result<Vec<&'a Key>, OutOfMemory>
    requires { IsStrictlySortedBy key_cmp (keys_of entries.now) }
    ensures { IfOk result (λ found. map (λ key. key.now) found.items ≡ fresh_keys (keys_of entries.now) keys.now) }
{
    let mut distinct = listed_keys(alloc, keys)?;
    distinct.sort_unstable();
    distinct.dedup();
    unknown_keys(alloc, entries, distinct.as_slice())
}

/// The keys of the lists, as they come.
fn listed_keys<'a>(alloc: Global, keys: &'a [KeyList]) -> Result<Vec<&'a Key>, OutOfMemory>
    ensures { IfOk result (λ found. map (λ key. key.now) found.items ≡ flat_map (λ own. own) keys.now) }
{
    let mut found = Vec::new(alloc);
    for list in keys {
        for key in list.as_slice() {
            found.push(key)?;
        }
    }
    Ok(found)
}

/// Those of ascending keys that are not among the entries, by one walk beside these.
fn unknown_keys<'a, V>(
    alloc: Global,
    entries: &[Entry<V>],
    keys: &[&'a Key],
) -> Result<Vec<&'a Key>, OutOfMemory>
    requires sorted { IsStrictlySortedBy key_cmp (keys_of entries.now) }
    requires ascend { IsStrictlySortedBy key_cmp (map (λ key. key.now) keys.now) }
    ensures { IfOk result (λ found. map (λ key. key.now) found.items ≡ filter (λ key. not (is_among key_cmp (keys_of entries.now) key)) (map (λ key. key.now) keys.now)) }
{
    let mut found = Vec::new(alloc);
    let mut before = 0;
    for key in keys {
        before += entries_below(&entries[before..], key);
        if !begins_with(&entries[before..], key) {
            found.push(*key)?;
        }
    }
    Ok(found)
}

/// How many entries at the front are below a key.
fn entries_below<V>(entries: &[Entry<V>], key: &Key) -> usize
    ensures within { result ≤ length entries.now }
    ensures below { result ≡ prefix_len (λ entry. is_lt (key_cmp entry.key key.now)) entries.now }
{
    for (place, entry) in entries.iter().enumerate() {
        if entry.key >= *key {
            return place;
        }
    }
    entries.len()
}

/// Whether the first entry is that of a key.
fn begins_with<V>(entries: &[Entry<V>], key: &Key) -> bool
    ensures { result ≡ is_among key_cmp (take 1 (keys_of entries.now)) key.now }
{
    match entries.first() {
        Some(entry) => *key == entry.key,
        None => false,
    }
}

/// An entry for each key, with the value of no rows.
fn new_entries<R: Reducer>(
    alloc: Global,
    reducer: &R,
    fresh: &[&Key],
) -> Result<Vec<Entry<R::Value>>, OutOfMemory>
    ensures keys { IfOk result (λ added. keys_of added.items ≡ map (λ key. key.now) fresh.now) }
    ensures meanings { IfOk result (λ added. AllByRecursion (λ entry. R.meaning_of entry.value ≡ (R.folding reducer.now).initial) added.items) }
{
    let mut added = Vec::with_capacity(alloc, fresh.len())?;
    for key in fresh {
        let key = key.copy(alloc)?;
        let value = reducer.initial(alloc)?;
        added.push(Entry { key, value })?;
    }
    Ok(added)
}

/// For each entry its position among all, where the fresh keys stand between them.
fn new_positions<V>(
    alloc: Global,
    entries: &[Entry<V>],
    fresh: &[&Key],
) -> Result<Vec<usize>, OutOfMemory>
    requires sorted { IsStrictlySortedBy key_cmp (keys_of entries.now) }
    requires ascend { IsStrictlySortedBy key_cmp (map (λ key. key.now) fresh.now) }
    requires few { length entries.now < 2 ^ 63 }
    ensures { IfOk result (λ order. order.items ≡ new_positions (keys_of entries.now) (map (λ key. key.now) fresh.now)) }
{
    let mut order = Vec::with_capacity(alloc, entries.len())?;
    let mut before = 0;
    for (position, entry) in entries.iter().enumerate() {
        before += count_below(&fresh[before..], &entry.key);
        order.push(position + before)?;
    }
    Ok(order)
}

/// How many at the front are below a key.
fn count_below(fresh: &[&Key], key: &Key) -> usize
    ensures within { result ≤ length fresh.now }
    ensures below { result ≡ prefix_len (λ other. is_lt (key_cmp other.now key.now)) fresh.now }
{
    for (place, other) in fresh.iter().enumerate() {
        if **other >= *key {
            return place;
        }
    }
    fresh.len()
}

/// Makes room to count in as many as these.
fn make_room(numbers: &mut Vec<usize>, count: usize) -> Result<(), OutOfMemory>
    ensures room { OnOk result (count ≤ length numbers.new.items) }
    ensures kept { length numbers.old.items ≤ length numbers.new.items }
{
    if numbers.len() < count {
        numbers.resize(count, 0)?;
    }
    Ok(())
}

/// Puts entries in the order of their keys.
fn sort_entries<V>(entries: &mut Vec<Entry<V>>)
    ensures same { IsPermutation entries.old.items entries.new.items }
    ensures sorted { IsSortedByKey (λ entry. entry.key) key_cmp entries.new.items }
{
    entries.sort_unstable_by(|one, other| one.key.cmp(&other.key));
}

/// Puts the positions of each list's keys as a new place, and makes their values ready for its row.
fn enter_places<R: Reducer, L: Ledger>(
    alloc: Global,
    reducer: &R,
    entries: &mut Vec<Entry<R::Value>>,
    places: &mut Lists<usize>,
    rows: &[Row],
    keys: &[KeyList],
    steps: &mut Steps<L>,
) -> Result<(), OutOfMemory>
    requires sorted { IsStrictlySortedBy key_cmp (keys_of entries.old.items) }
    requires within { AreWithin (length entries.old.items) places.old }
    requires rows { SuitAll (R.fits_to reducer.now) rows.now }
    requires each { length keys.now ≡ length rows.now }
    requires there { AllByRecursion (AllByRecursion (λ key. is_among key_cmp (keys_of entries.old.items) key ≡ true)) keys.now }
    ensures places { OnOk result (key_lists (keys_of entries.new.items) places.new ≡ key_lists (keys_of entries.old.items) places.old ++ keys.now) }
    ensures ready { OnOk result (AreReady (R.IsReady reducer.now) entries.new.items rows.now keys.now) }
    ensures cost { OnOk result (steps.new ≤ steps.old + digits (length entries.new.items) * sum_by length keys.now) }
    ensures begun { take (length places.old) places.new ≡ places.old }
    ensures keys { keys_of entries.new.items ≡ keys_of entries.old.items }
    ensures meanings { meanings R.meaning_of entries.new.items ≡ meanings R.meaning_of entries.old.items }
    ensures kept { StayReady (R.IsReady reducer.now) entries.old.items entries.new.items }
    ensures calls { KeepCalls R.calls entries.old.items entries.new.items }
    ensures within { AreWithin (length entries.new.items) places.new }
{
    let mut own = Vec::new(alloc);
    for place in 0..rows.len() {
        enter_place(
            reducer,
            entries.as_mut_slice(),
            &mut own,
            &rows[place],
            keys[place].as_slice(),
            steps,
        )?;
        places.push(&mut own)?;
    }
    Ok(())
}

/// Puts the positions of some keys, and makes their values ready for a row.
fn enter_place<R: Reducer, L: Ledger>(
    reducer: &R,
    entries: &mut [Entry<R::Value>],
    own: &mut Vec<usize>,
    row: &Row,
    keys: &[Key],
    steps: &mut Steps<L>,
) -> Result<(), OutOfMemory>
    requires empty { own.old.items ≡ [] }
    requires sorted { IsStrictlySortedBy key_cmp (keys_of entries.old) }
    requires row { Suits (R.fits_to reducer.now) row.now }
    requires there { AllByRecursion (λ key. is_among key_cmp (keys_of entries.old) key ≡ true) keys.now }
    ensures positions { OnOk result (keys_at_positions (keys_of entries.new) own.new.items ≡ keys.now) }
    ensures within { OnOk result (AllByRecursion (λ position. position < length entries.new) own.new.items) }
    ensures ready { OnOk result (AllByRecursion (λ key. IsReadyAt (R.IsReady reducer.now) entries.new key row.now) keys.now) }
    ensures kept { AreKept R.meaning_of (R.IsReady reducer.now) R.calls entries.old entries.new }
    ensures cost { OnOk result (steps.new ≤ steps.old + digits (length entries.new) * length keys.now) }
{
    for key in keys {
        let position = enter_key(reducer, entries, row, key, steps)?;
        own.push(position)?;
    }
    Ok(())
}

/// The position of a key, whose value is made ready for a row.
fn enter_key<R: Reducer, L: Ledger>(
    reducer: &R,
    entries: &mut [Entry<R::Value>],
    row: &Row,
    key: &Key,
    steps: &mut Steps<L>,
) -> Result<usize, OutOfMemory>
    requires sorted { IsStrictlySortedBy key_cmp (keys_of entries.old) }
    requires row { Suits (R.fits_to reducer.now) row.now }
    requires there { is_among key_cmp (keys_of entries.old) key.now ≡ true }
    ensures position { IfOk result (λ position. slice_get (keys_of entries.new) position ≡ Some key.now) }
    ensures ready { OnOk result (IsReadyAt (R.IsReady reducer.now) entries.new key.now row.now) }
    ensures kept { AreKept R.meaning_of (R.IsReady reducer.now) R.calls entries.old entries.new }
    ensures cost { steps.new ≤ steps.old + digits (length entries.old) }
{
    let Some(position) = find(entries, key, steps) else {
        unreachable!()
    };
    reducer.prepare(&mut entries[position].value, row)?;
    Ok(position)
}
