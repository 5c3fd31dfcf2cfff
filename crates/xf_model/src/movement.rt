//! What a new filter moves.
ghost use Rattle.std.specs.Prelude.{◌≡◌, [], ◌∷◌, map, if◌then◌else◌};
ghost use Rattle.xf_model.specs.Moved.{moved, moved_keys};
ghost use Rattle.xf_model.specs.Plain.{column_keys, plain_filter};

use crate::dimension::{PlainRange, holds, key_of};

/// Whether exactly one of two filters holds for a key.
fn moves(old: Option<PlainRange>, new: Option<PlainRange>, key: i64) -> bool
    ensures { (if result then 1 else 0) ≡ moved_keys (plain_filter old) (plain_filter new) (key ∷ []) }
{
    holds(old, key) != holds(new, key)
}

/// Whether a filter takes a row in that the other leaves out; for a row without a key, whether exactly one of the two
/// is no filter.
fn is_moved(column: usize, old: Option<PlainRange>, new: Option<PlainRange>, row: &[i64]) -> bool
    ensures { (if result then 1 else 0) ≡ moved_keys (plain_filter old) (plain_filter new) (column_keys column row.now) }
{
    match key_of(column, row) {
        None => old.is_none() != new.is_none(),
        Some(key) => moves(old, new, key),
    }
}

/// How many rows a dimension's filter takes in or leaves out, where `new` replaces `old`. Without a range there is no
/// filter; a row that is too short counts where exactly one of the two is none.
pub fn moved(
    column: usize,
    old: Option<PlainRange>,
    new: Option<PlainRange>,
    rows: &[Vec<i64>],
) -> u64
    ensures { result ≡ moved (column_keys column) (plain_filter old) (plain_filter new) (map (λ row. row.items) rows.now) }
{
    let mut number: u64 = 0;
    for row in rows {
        if is_moved(column, old, new, row.as_slice()) {
            number += 1;
        }
    }
    number
}
