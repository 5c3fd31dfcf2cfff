//! Predicates: for which keys a filter of one's own holds.
ghost use Rattle.std.specs.Prelude.{◌≡◌, Bool, List, IfOk};
ghost use Rattle.xf_base.specs.declared.key.Key.{Key};
ghost use Rattle.xf_filter.specs.Filter.{first_other};

use std::alloc::Global;
use xf_base::{Key, KeyKind, OutOfMemory};

/// For which keys a filter holds. Any type that proves these clauses may be one.
pub trait Predicate: Drop {
    /// Whether it says yes to a key.
    ghost says_to: { Self → Key → Bool };

    /// The keys inside it, from left to right.
    ghost keys_in: { Self → List Key };

    /// Whether it says yes to a key, the same for equal keys at all times. It takes no memory.
    fn says(&self, key: &Key) -> bool
        ensures { result ≡ says_to self.now key.now };

    /// The kind of the first key inside it that is of another kind. It takes no memory.
    fn misfit(&self, kind: &KeyKind) -> Option<KeyKind>
        ensures { result ≡ first_other kind.now (keys_in self.now) };

    /// The same predicate once more, with memory of its own. Only want of memory is an error.
    fn copy(&self, alloc: Global) -> Result<Self, OutOfMemory>
    where
        Self: Sized,
        ensures { IfOk result (λ copy. copy ≡ self.now) };
}
