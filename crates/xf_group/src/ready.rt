//! Values made ready for a row, and the values of no rows.
ghost use Rattle.std.specs.Prelude.{◌≡◌, ◌<◌, IfOk, OnOk, length};
ghost use Rattle.std.specs.List.{AllByRecursion};
ghost use Rattle.std.specs.List.Sorted.{IsStrictlySortedBy};
ghost use Rattle.xf_base.specs.Key.{key_cmp};
ghost use Rattle.xf_group.specs.Admitted.{IsReadyAt};
ghost use Rattle.xf_group.specs.Fresh.{AreKept};
ghost use Rattle.xf_group.specs.Held.{keys_at_positions, keys_of};
ghost use Rattle.xf_reduce.specs.Laws.{Suits};

use crate::entry::Entry;
use std::alloc::Global;
use xf_base::{OutOfMemory, Row};
use xf_reduce::Reducer;

/// Makes the value at each of some positions ready for a row. Without memory some may be ready for it.
pub fn prepare_each<R: Reducer>(
    reducer: &R,
    entries: &mut [Entry<R::Value>],
    positions: &[usize],
    row: &Row,
) -> Result<(), OutOfMemory>
    requires sorted { IsStrictlySortedBy key_cmp (keys_of entries.old) }
    requires within { AllByRecursion (λ position. position < length entries.old) positions.now }
    requires row { Suits (R.fits_to reducer.now) row.now }
    ensures ready { OnOk result (AllByRecursion (λ key. IsReadyAt (R.IsReady reducer.now) entries.new key row.now) (keys_at_positions (keys_of entries.old) positions.now)) }
    ensures kept { AreKept R.meaning_of (R.IsReady reducer.now) R.calls entries.old entries.new }
{
    for position in positions {
        reducer.prepare(&mut entries[*position].value, row)?;
    }
    Ok(())
}

/// The same keys, each with the value of no rows.
pub fn empty_entries<R: Reducer>(
    alloc: Global,
    reducer: &R,
    entries: &[Entry<R::Value>],
) -> Result<Vec<Entry<R::Value>>, OutOfMemory>
    ensures keys { IfOk result (λ emptied. keys_of emptied.items ≡ keys_of entries.now) }
    ensures meanings { IfOk result (λ emptied. AllByRecursion (λ entry. R.meaning_of entry.value ≡ (R.folding reducer.now).initial) emptied.items) }
{
    let mut emptied = Vec::with_capacity(alloc, entries.len())?;
    for entry in entries {
        let key = entry.key.copy(alloc)?;
        let value = reducer.initial(alloc)?;
        emptied.push(Entry { key, value })?;
    }
    Ok(emptied)
}
