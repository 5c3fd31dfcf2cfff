//! Keys that no place has.
ghost use Rattle.std.specs.Prelude.{◌≡◌, ◌≤◌, ◌<◌, filter, flat_map, length, map, take};
ghost use Rattle.std.specs.List.{AllByRecursion};
ghost use Rattle.std.specs.List.Sorted.{IsStrictlySortedBy};
ghost use Rattle.xf_base.specs.Gone.{kept};
ghost use Rattle.xf_base.specs.Key.{key_cmp};
ghost use Rattle.xf_group.specs.Held.{AreWithin, key_lists, keys_of};
ghost use Rattle.xf_group.specs.Used.{AreMarked, AreMarkedMore, AreRenumbered, unused_marks};
ghost use Rattle.xf_model.specs.Laws.{is_among};

use crate::entry::Entry;
use xf_lists::Lists;

/// Drops the entries whose positions no place has, in order, and renumbers the positions. It takes no memory: `numbers` is
/// room to count in, as long as the entries at least.
pub fn drop_unused<V>(
    entries: &mut Vec<Entry<V>>,
    places: &mut Lists<usize>,
    numbers: &mut Vec<usize>,
)
where
    V: Drop,
    requires within { AreWithin (length entries.old.items) places.old }
    requires room { length entries.old.items ≤ length numbers.old.items }
    requires sorted { IsStrictlySortedBy key_cmp (keys_of entries.old.items) }
    ensures entries { entries.new.items ≡ filter (λ entry. is_among key_cmp (flat_map (λ keys. keys) (key_lists (keys_of entries.old.items) places.old)) entry.key) entries.old.items }
    ensures places { key_lists (keys_of entries.new.items) places.new ≡ key_lists (keys_of entries.old.items) places.old }
    ensures within { AreWithin (length entries.new.items) places.new }
    ensures room { length numbers.new.items ≡ length numbers.old.items }
{
    mark_used(places, numbers.as_mut_slice());
    let count = compact(entries.as_mut_slice(), numbers.as_mut_slice());
    entries.truncate(count);
    places.renumber(numbers.as_slice());
}

/// Puts 1 for each position that some place has, and 0 for the others.
fn mark_used(places: &Lists<usize>, numbers: &mut [usize])
    requires { AreWithin (length numbers.old) places.now }
    ensures { AreMarked places.now numbers.new }
{
    numbers.fill(0);
    for place in 0..places.len() {
        mark_each(places.list(place), numbers);
    }
}

/// Puts 1 for each of these positions, and leaves the others.
fn mark_each(positions: &[usize], numbers: &mut [usize])
    requires { AllByRecursion (λ position. position < length numbers.old) positions.now }
    ensures { AreMarkedMore positions.now numbers.old numbers.new }
{
    for position in positions {
        numbers[*position] = 1;
    }
}

/// Moves the entries whose number is not 0 to the front, in order, and puts for each of them its new position.
fn compact<V>(entries: &mut [Entry<V>], numbers: &mut [usize]) -> usize
    requires room { length entries.old ≤ length numbers.old }
    ensures entries { take result entries.new ≡ kept (unused_marks numbers.old) entries.old }
    ensures numbers { AreRenumbered (unused_marks numbers.old) (length entries.old) numbers.new }
{
    let mut count = 0;
    for position in 0..entries.len() {
        if numbers[position] != 0 {
            entries.swap(count, position);
            numbers[position] = count;
            count += 1;
        }
    }
    count
}
