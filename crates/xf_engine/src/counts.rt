//! How many rows pass, and how much a new filter moves.
ghost use Rattle.std.specs.Prelude.{◌≡◌, ◌+◌, ◌<◌, ◌≤◌, ◌^◌, length, sum_by};
ghost use Rattle.std.specs.List.{AllByRecursion};
ghost use Rattle.xf_engine.specs.Answers.{passing_in};
ghost use Rattle.xf_engine.specs.Held.{HoldsKeysOf, live_dimensions};
ghost use Rattle.xf_filter.specs.Filter.{filter_of};
ghost use Rattle.xf_model.specs.Moved.{exactly_one, moved_keys};

use crate::dimension::{Dimension, passes_each};
use xf_access::Accessor;
use xf_base::{Key, Row};
use xf_filter::{Filter, Predicate};
use xf_lists::Lists;

/// How many rows pass each dimension.
pub fn passing_count<A: Accessor, P: Predicate>(dimensions: &[Dimension<A, P>], rows: &[Row]) -> u64
    requires { AllByRecursion (HoldsKeysOf A.keys_of rows.now) dimensions.now }
    ensures { result ≡ passing_in A.keys_of P.says_to (live_dimensions dimensions.now) rows.now }
{
    let mut count = 0;
    for place in 0..rows.len() {
        if passes_each(dimensions, rows.len(), place) {
            count += 1;
        }
    }
    count
}

/// How much moves where one filter replaces another: for how many keys exactly one of the two filters holds, and how many
/// rows without keys pass under exactly one of them.
pub fn moved_count<P: Predicate>(keys: &Lists<Key>, old: &Filter<P>, new: &Filter<P>) -> u64
    requires few { sum_by length keys.now + length keys.now < 2 ^ 64 }
    ensures moved { result ≡ sum_by (moved_keys (filter_of P.says_to old.now) (filter_of P.says_to new.now)) keys.now }
    ensures few { result ≤ sum_by length keys.now + length keys.now }
{
    let mut count = 0;
    for place in 0..keys.len() {
        count += moved_in_row(keys.list(place), old, new);
    }
    count
}

/// The same in one row.
#[tactic(auto, using(crate::proofs::MovedKeys::moved_some))]
fn moved_in_row<P: Predicate>(keys: &[Key], old: &Filter<P>, new: &Filter<P>) -> u64
    ensures moved { result ≡ moved_keys (filter_of P.says_to old.now) (filter_of P.says_to new.now) keys.now }
    ensures few { result ≤ length keys.now + 1 }
{
    if keys.is_empty() {
        return u64::from(old.is_all() != new.is_all());
    }
    keys.iter().filter(|key| is_moved(key, old, new)).count() as u64
}

/// Whether exactly one of the two filters holds for a key.
fn is_moved<P: Predicate>(key: &Key, old: &Filter<P>, new: &Filter<P>) -> bool
    ensures { result ≡ exactly_one ((filter_of P.says_to old.now).holds key.now) ((filter_of P.says_to new.now).holds key.now) }
{
    old.holds(key) != new.holds(key)
}
