//! Filters: for which keys a dimension lets a record pass.
ghost use Rattle.std.specs.Prelude.{◌≡◌, ◌==◌, IfOk};
ghost use Rattle.xf_filter.specs.Filter.{filter_keys, filter_of, first_other};

use crate::misfit::{misfit_of, misfit_of_ends};
use crate::predicate::Predicate;
use std::alloc::Global;
use xf_base::{Key, KeyKind, OutOfMemory};

/// A filter of keys, after Crossfilter's four kinds.
#[derive(Debug, Drop)]
pub enum Filter<P> {
    /// Every key, and a record without keys.
    All,
    /// The keys that equal this one.
    Exact(Key),
    /// The keys from the first on that are below the second.
    Range(Key, Key),
    /// The keys of which the predicate says yes.
    Func(P),
}

impl<P: Predicate> Filter<P> {
    /// Whether it is "all", which a record without keys passes too.
    pub fn is_all(&self) -> bool
        ensures { result ≡ (filter_of P.says_to self.now).is_all }
    {
        matches!(self, Filter::All)
    }

    /// Whether it holds for a key. It takes no memory.
    pub fn holds(&self, key: &Key) -> bool
        ensures { result ≡ (filter_of P.says_to self.now).holds key.now }
    {
        match self {
            Filter::All => true,
            Filter::Exact(value) => key == value,
            Filter::Range(low, high) => low <= key && key < high,
            Filter::Func(predicate) => predicate.says(key),
        }
    }

    /// The kind of the first key inside it that is of another kind, and None exactly where there is none. It takes no
    /// memory.
    pub fn misfit(&self, kind: &KeyKind) -> Option<KeyKind>
        ensures { result ≡ first_other kind.now (filter_keys P.keys_in self.now) }
    {
        match self {
            Filter::All => None,
            Filter::Exact(value) => misfit_of(kind, value),
            Filter::Range(low, high) => misfit_of_ends(kind, low, high),
            Filter::Func(predicate) => predicate.misfit(kind),
        }
    }

    /// The same filter once more, with memory of its own.
    pub fn copy(&self, alloc: Global) -> Result<Filter<P>, OutOfMemory>
        ensures { IfOk result (λ copy. copy ≡ self.now) }
    {
        Ok(match self {
            Filter::All => Filter::All,
            Filter::Exact(value) => Filter::Exact(value.copy(alloc)?),
            Filter::Range(low, high) => Filter::Range(low.copy(alloc)?, high.copy(alloc)?),
            Filter::Func(predicate) => Filter::Func(predicate.copy(alloc)?),
        })
    }
}
