//! Where a key stands among ascending entries.
ghost use Rattle.std.specs.Prelude.{◌≡◌, ◌+◌, ◌≤◌, length};
ghost use Rattle.std.specs.List.Sorted.{IsStrictlySortedBy};
ghost use Rattle.xf_base.specs.Key.{key_cmp};
ghost use Rattle.xf_group.specs.Group.{is_entry_of};
ghost use Rattle.xf_group.specs.Held.{keys_of};
ghost use Rattle.xf_model.specs.Digits.{digits};
ghost use Rattle.std.specs.List.{position};

use crate::entry::Entry;
use std::cmp::Ordering;
use std::sync::ledger::Ledger;
use xf_base::{Key, Steps};

/// The position of a key, if it is there, by halves: at most as many steps as the number of entries has binary digits.
pub fn find<V, L: Ledger>(entries: &[Entry<V>], key: &Key, steps: &mut Steps<L>) -> Option<usize>
    requires { IsStrictlySortedBy key_cmp (keys_of entries.now) }
    ensures found { result ≡ position (is_entry_of key.now) entries.now }
    ensures cost { steps.new ≤ steps.old + digits (length entries.now) }
{
    let (mut low, mut high) = (0, entries.len());
    while low < high {
        let middle = low + (high - low) / 2;
        steps.tick();
        match key.cmp(&entries[middle].key) {
            Ordering::Less => high = middle,
            Ordering::Equal => return Some(middle),
            Ordering::Greater => low = middle + 1,
        }
    }
    None
}
