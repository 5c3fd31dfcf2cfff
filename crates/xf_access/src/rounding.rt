//! Roundings: under which key a group counts a key.
ghost use Rattle.std.specs.Prelude.{◌≡◌, true, IfOk};
ghost use Rattle.std.specs.Ordering.{is_le};
ghost use Rattle.xf_base.specs.Key.{key_cmp, IsPlain};
ghost use Rattle.xf_base.specs.Kind.{kind_of_key};
ghost use Rattle.xf_base.specs.declared.key.Key.{Key};

use std::alloc::Global;
use xf_base::{Key, OutOfMemory};

/// Under which key a group counts a key. Any type that proves the law may be one.
pub trait Rounding: Drop {
    /// The key under which a key is counted.
    ghost rounded: { Self → Key → Key };

    /// The key under which a key is counted. Only want of memory is an error.
    fn round(&self, alloc: Global, key: &Key) -> Result<Key, OutOfMemory>
        ensures { IfOk result (λ own. own ≡ rounded self.now key.now) };

    /// Of two keys of one kind, the lower is not rounded to the higher key.
    ghost keeps_order: { (r : Self) (a b : Key) → IsPlain a → IsPlain b → kind_of_key a ≡ kind_of_key b → is_le (key_cmp a b) ≡ true → is_le (key_cmp (rounded r a) (rounded r b)) ≡ true };
}
