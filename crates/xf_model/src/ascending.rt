//! Ascending keys, each once, and how one more enters.
ghost use Rattle.std.specs.Prelude.{◌≡◌, ◌≤◌, length, insert, MatchOption, OnOk, OnErr};
ghost use Rattle.xf_model.specs.Group.{with_key};

use std::alloc::AllocError;
use std::cmp::Ordering;

/// The place at which a key enters ascending distinct keys, or None where it is there already.
fn free_place<Key: Ord>(keys: &[Key], key: &Key) -> Option<usize>
    ensures { MatchOption result (with_key Key.cmp key.now keys.now ≡ keys.now) (λ place. (place ≤ length keys.now) × (with_key Key.cmp key.now keys.now ≡ insert keys.now place key.now)) }
{
    for (place, own) in keys.iter().enumerate() {
        match own.cmp(key) {
            Ordering::Less => {}
            Ordering::Equal => return None,
            Ordering::Greater => return Some(place),
        }
    }
    Some(keys.len())
}

/// Inserts a key at its place among ascending distinct keys, unless it is there already.
pub(crate) fn insert_key<Key: Ord + Copy>(keys: &mut Vec<Key>, key: Key) -> Result<(), AllocError>
    ensures ok { OnOk result (keys.new.items ≡ with_key Key.cmp key keys.old.items) }
    ensures err { OnErr result (keys.new.items ≡ keys.old.items) }
{
    if let Some(place) = free_place(keys.as_slice(), &key) {
        keys.insert(place, key)?;
    }
    Ok(())
}
