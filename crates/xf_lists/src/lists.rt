//! Lists of lists, kept flat.
ghost use Rattle.xf_base.specs.Gone.{kept};
ghost use Rattle.xf_lists.specs.Lists.{AreEnds, cut_at, start_of};
ghost use Rattle.std.specs.Prelude.{◌≡◌, ◌+◌, ◌-◌, ◌<◌, ◌≤◌, ◌^◌, [], ◌∷◌, ◌++◌, IfOk, OnErr, OnOk, Some, drop, length, map, slice_get, slice_index, sum_by, take};
ghost use Rattle.std.specs.List.{AllByRecursion};

use std::alloc::Global;
use std::marker::Model;
use xf_base::{Gone, OutOfMemory};

/// So many items no memory holds: a list that would bring as many is refused as one without memory for it.
const TOO_MANY_ITEMS: usize = 1 << 57;

/// Lists in order, seen by contracts as the list of them.
#[derive(Debug, Drop)]
pub struct Lists<T> {
    items: Vec<T>,
    ends: Vec<usize>,
}

impl<T> Model for Lists<T> {
    ghost use Rattle.std.specs.Prelude.{◌<◌, ◌^◌, List, length};
    ghost use Rattle.xf_lists.specs.Lists.{AreEnds, cut_at};

    ghost Value = { List (List T) };

    ghost view = { λ lists. cut_at 0 lists.ends.items lists.items.items };

    ghost invariant = { λ lists. AreEnds 0 lists.ends.items (length lists.items.items) × (length lists.items.items < 2 ^ 57) };
}

impl<T: Drop> Lists<T> {
    /// No lists. It takes no memory yet.
    pub fn new(alloc: Global) -> Lists<T>
        ensures { result ≡ [] }
    {
        Lists {
            items: Vec::new(alloc),
            ends: Vec::new(alloc),
        }
    }

    /// Puts a list at the end, and leaves the vector that had it empty. Without memory for it nothing is put, and the
    /// vector has its items still.
    pub fn push(&mut self, list: &mut Vec<T>) -> Result<(), OutOfMemory>
        ensures ok { OnOk result (self.new ≡ self.old ++ list.old.items ∷ []) }
        ensures taken { OnOk result (list.new.items ≡ []) }
        ensures err { OnErr result (self.new ≡ self.old) }
    {
        let held = self.items.len();
        let more = list.len();
        if more >= TOO_MANY_ITEMS - held {
            return Err(OutOfMemory);
        }
        self.ends.push(held + more)?;
        if self.items.append(list).is_err() {
            self.ends.pop();
            return Err(OutOfMemory);
        }
        Ok(())
    }

    /// Keeps the first `count` lists.
    pub fn truncate(&mut self, count: usize)
        ensures { self.new ≡ take count self.old }
    {
        if count < self.ends.len() {
            let end = start_of(self.ends.as_slice(), count);
            self.items.truncate(end);
            self.ends.truncate(count);
        }
    }

    /// Keeps the lists whose places are not removed, in order. It takes no memory.
    #[tactic(auto, using(crate::proofs::CutAt::cut_length))]
    pub fn retain(&mut self, gone: &Gone)
        requires { length gone.now ≡ length self.old }
        ensures { self.new ≡ kept gone.now self.old }
    {
        let (count, filled) = compact(self.items.as_mut_slice(), self.ends.as_mut_slice(), gone);
        self.items.truncate(filled);
        self.ends.truncate(count);
    }

    /// The list at a place from 0 on.
    #[tactic(auto, using(crate::proofs::CutAt::cut_length))]
    pub fn list(&self, place: usize) -> &[T]
        requires { place < length self.now }
        ensures { Some result.now ≡ slice_get self.now place }
    {
        list_of(self.items.as_slice(), self.ends.as_slice(), place)
    }

    /// The number of lists.
    #[tactic(auto, using(crate::proofs::CutAt::cut_length))]
    pub fn len(&self) -> usize
        ensures { result ≡ length self.now }
    {
        self.ends.len()
    }

    /// The number of items of all lists.
    pub fn item_count(&self) -> usize
        ensures count { result ≡ sum_by length self.now }
        ensures few { result < 2 ^ 57 }
    {
        self.items.as_slice().len()
    }
}

impl Lists<usize> {
    /// The same lists once more. Only want of memory is an error.
    pub fn copy(&self, alloc: Global) -> Result<Lists<usize>, OutOfMemory>
        ensures { IfOk result (λ copy. copy ≡ self.now) }
    {
        Ok(Lists {
            items: self.items.as_slice().to_vec(alloc)?,
            ends: self.ends.as_slice().to_vec(alloc)?,
        })
    }

    /// Puts for each number the one that stands at its place in `numbers`.
    pub fn renumber(&mut self, numbers: &[usize])
        requires { AllByRecursion (AllByRecursion (λ item. item < length numbers.now)) self.old }
        ensures { self.new ≡ map (map (slice_index numbers.now)) self.old }
    {
        renumber_items(self.items.as_mut_slice(), numbers);
    }
}

/// Puts for each number the one that stands at its place in `numbers`.
fn renumber_items(items: &mut [usize], numbers: &[usize])
    requires { AllByRecursion (λ item. item < length numbers.now) items.old }
    ensures { items.new ≡ map (slice_index numbers.now) items.old }
{
    for place in 0..items.len() {
        items[place] = numbers[items[place]];
    }
}

/// Moves the items of the lists that are kept to the front, in order, and tells how many lists and how many items they
/// are.
fn compact<T>(items: &mut [T], ends: &mut [usize], gone: &Gone) -> (usize, usize)
    requires ends { AreEnds 0 ends.old (length items.old) }
    requires places { length ends.old ≡ length gone.now }
    ensures within { result.1 ≤ length items.new }
    ensures ends { AreEnds 0 (take result.0 ends.new) result.1 }
    ensures kept { cut_at 0 (take result.0 ends.new) (take result.1 items.new) ≡ kept gone.now (cut_at 0 ends.old items.old) }
{
    let (mut count, mut filled, mut start) = (0, 0, 0);
    for place in 0..ends.len() {
        let end = ends[place];
        if !gone.is_gone(place) {
            filled = move_down(items, start, end, filled);
            ends[count] = filled;
            count += 1;
        }
        start = end;
    }
    (count, filled)
}

/// Moves the items from `start` to before `end` down to `to`, in order, and tells where they end then.
fn move_down<T>(items: &mut [T], start: usize, end: usize, to: usize) -> usize
    requires below { to ≤ start }
    requires order { start ≤ end }
    requires within { end ≤ length items.old }
    ensures result { result ≡ to + (end - start) }
    ensures moved { take result items.new ≡ take to items.old ++ take (end - start) (drop start items.old) }
    ensures later { drop end items.new ≡ drop end items.old }
{
    let mut next = to;
    for place in start..end {
        items.swap(next, place);
        next += 1;
    }
    next
}

/// The list at a place, which ends where its end is and begins where the one before it ends.
fn list_of<'a, T>(items: &'a [T], ends: &[usize], place: usize) -> &'a [T]
    requires ends { AreEnds 0 ends.now (length items.now) }
    requires place { place < length ends.now }
    ensures { Some result.now ≡ slice_get (cut_at 0 ends.now items.now) place }
{
    let start = start_of(ends, place);
    let end = ends[place];
    &items[start..end]
}

/// Where the list at a place begins: where the one before it ends.
fn start_of(ends: &[usize], place: usize) -> usize
    requires { place < length ends.now }
    ensures { result ≡ start_of ends.now place }
{
    if place == 0 { 0 } else { ends[place - 1] }
}
