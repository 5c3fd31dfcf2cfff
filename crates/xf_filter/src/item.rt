//! Items: what a list of a filter names, one key or a range of keys.
ghost use Rattle.std.specs.Prelude.{◌≡◌, ◌∷◌, [], IfOk};
ghost use Rattle.xf_filter.specs.Filter.{first_other, item_holds, item_keys};

use crate::misfit::{misfit_of, misfit_of_ends};
use std::alloc::Global;
use xf_base::{Key, KeyKind, OutOfMemory};

/// What a list of a filter names.
#[derive(Debug, PartialEq, Eq, Drop)]
pub enum Item {
    /// One key.
    Exact(Key),
    /// The keys from the first on that are below the second.
    Range(Key, Key),
}

impl Item {
    /// Whether it names a key.
    pub fn holds(&self, key: &Key) -> bool
        ensures { result ≡ item_holds self.now key.now }
    {
        match self {
            Item::Exact(value) => key == value,
            Item::Range(low, high) => low <= key && key < high,
        }
    }

    /// The kind of its first key that is of another kind.
    pub fn misfit(&self, kind: &KeyKind) -> Option<KeyKind>
        ensures { result ≡ first_other kind.now (item_keys self.now) }
    {
        match self {
            Item::Exact(value) => misfit_of(kind, value),
            Item::Range(low, high) => misfit_of_ends(kind, low, high),
        }
    }

    /// The same item once more, with memory of its own.
    pub fn copy(&self, alloc: Global) -> Result<Item, OutOfMemory>
        ensures { IfOk result (λ copy. copy ≡ self.now) }
    {
        Ok(match self {
            Item::Exact(value) => Item::Exact(value.copy(alloc)?),
            Item::Range(low, high) => Item::Range(low.copy(alloc)?, high.copy(alloc)?),
        })
    }
}
