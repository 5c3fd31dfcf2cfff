//! The keys of rows as a group sees them: rounded, ascending, each once.
ghost use Rattle.std.specs.Prelude.{◌≡◌, ◌≤◌, IfOk, OnErr, OnOk, drop, length, map};
ghost use Rattle.xf_base.specs.Key.{key_cmp};
ghost use Rattle.xf_model.specs.Group.{distinct_keys, with_key};

use std::alloc::Global;
use std::cmp::Ordering;
use xf_access::Rounding;
use xf_base::{Key, KeyList, OutOfMemory};
use xf_lists::Lists;

/// Puts a key among ascending keys, if it is not there.
fn insert_key(keys: &mut Vec<Key>, key: Key) -> Result<(), OutOfMemory>
    ensures ok { OnOk result (keys.new.items ≡ with_key key_cmp key keys.old.items) }
{
    for place in 0..keys.len() {
        match key.cmp(&keys[place]) {
            Ordering::Less => {
                keys.insert(place, key)?;
                return Ok(());
            }
            Ordering::Equal => return Ok(()),
            Ordering::Greater => {}
        }
    }
    keys.push(key)?;
    Ok(())
}

/// The rounded keys of one row. A row has one key or a few, so they are put in their order one by one, from the last.
fn rounded_keys<G: Rounding>(
    alloc: Global,
    rounding: &G,
    keys: &[Key],
) -> Result<KeyList, OutOfMemory>
    ensures { IfOk result (λ own. own ≡ distinct_keys key_cmp (map (G.rounded rounding.now) keys.now)) }
{
    let mut rounded = Vec::with_capacity(alloc, keys.len())?;
    for key in keys.iter().rev() {
        insert_key(&mut rounded, rounding.round(alloc, key)?)?;
    }
    Ok(KeyList::from_vec(rounded))
}

/// The rounded keys of each row from a place on.
pub fn rounded_lists<G: Rounding>(
    alloc: Global,
    rounding: &G,
    lists: &Lists<Key>,
    from: usize,
) -> Result<Vec<KeyList>, OutOfMemory>
    requires { from ≤ length lists.now }
    ensures { IfOk result (λ v. v.items ≡ map (λ keys. distinct_keys key_cmp (map (G.rounded rounding.now) keys)) (drop from lists.now)) }
{
    let count = lists.len() - from;
    let mut rounded = Vec::with_capacity(alloc, count)?;
    for place in 0..count {
        rounded.push(rounded_keys(alloc, rounding, lists.list(from + place))?)?;
    }
    Ok(rounded)
}
