//! Places of a list that are removed, and where the others come to stand.
ghost use Rattle.std.specs.Prelude.{◌≡◌, ◌==◌, ◌<◌, true, length, take, IfOk, slice_index_or};
ghost use Rattle.xf_base.specs.Gone.{AreCounts, kept, new_place};

use crate::out_of_memory::OutOfMemory;
use std::alloc::Global;
use std::marker::Model;

/// For each place of a list, whether it is removed.
#[derive(Debug, Drop)]
pub struct Gone {
    marks: Vec<bool>,
    counts: Vec<usize>,
}

impl Model for Gone {
    ghost use Rattle.std.specs.Prelude.{List, Bool};
    ghost use Rattle.xf_base.specs.Gone.{AreCounts};

    ghost Value = { List Bool };

    ghost view = { λ gone. gone.marks.items };

    ghost invariant = { λ gone. AreCounts gone.marks.items gone.counts.items };
}

impl Gone {
    /// The places to be removed are those whose mark is true. It takes memory to count those before each that stay.
    pub fn of(alloc: Global, marks: Vec<bool>) -> Result<Gone, OutOfMemory>
        ensures { IfOk result (λ gone. gone ≡ marks.items) }
    {
        let counts = counts_of(alloc, marks.as_slice())?;
        Ok(Gone { marks, counts })
    }

    /// The number of places, those that are removed among them.
    pub fn len(&self) -> usize
        ensures { result ≡ length self.now }
    {
        self.marks.len()
    }

    /// Whether there are no places.
    pub fn is_empty(&self) -> bool
        ensures { result ≡ (length self.now == 0) }
    {
        self.marks.is_empty()
    }

    /// Whether a place is removed.
    pub fn is_gone(&self, place: usize) -> bool
        requires { place < length self.now }
        ensures { result ≡ slice_index_or self.now place true }
    {
        self.marks[place]
    }

    /// Where the item at a place comes to stand, from 0 on, or None where it is removed.
    pub fn new_place(&self, old: usize) -> Option<usize>
        requires { old < length self.now }
        ensures { result ≡ new_place self.now old }
    {
        if self.marks[old] {
            None
        } else {
            Some(self.counts[old])
        }
    }
}

/// How many places before each one stay.
fn counts_of(alloc: Global, marks: &[bool]) -> Result<Vec<usize>, OutOfMemory>
    ensures { IfOk result (λ counts. AreCounts marks.now counts.items) }
{
    let mut counts = Vec::with_capacity(alloc, marks.len())?;
    let mut count: usize = 0;
    for gone in marks {
        counts.push(count)?;
        if !*gone {
            count += 1;
        }
    }
    Ok(counts)
}

/// Moves the items that are kept to the front, in order, and tells how many they are.
pub(crate) fn compact<T>(items: &mut [T], gone: &Gone) -> usize
    requires { length gone.now ≡ length items.old }
    ensures { take result items.new ≡ kept gone.now items.old }
{
    let mut count: usize = 0;
    for place in 0..items.len() {
        if !gone.is_gone(place) {
            items.swap(count, place);
            count += 1;
        }
    }
    count
}
