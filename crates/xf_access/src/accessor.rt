//! Accessors: which keys a record has.
ghost use Rattle.std.specs.Prelude.{◌≡◌, true, Bool, List, IfOk};
ghost use Rattle.xf_base.specs.Schema.{IsRowOf};
ghost use Rattle.xf_base.specs.declared.cell.Cell.{Cell};
ghost use Rattle.xf_base.specs.declared.column.Column.{Column};
ghost use Rattle.xf_base.specs.declared.key.Key.{Key};
ghost use Rattle.xf_base.specs.declared.kind.KeyKind.{KeyKind};
ghost use Rattle.xf_access.specs.Keys.{AreKeysOf};

use std::alloc::Global;
use xf_base::{Key, KeyKind, KeyList, OutOfMemory, Row, Schema};

/// Which keys a record has, by what its row holds. Any type that proves the law may be one.
pub trait Accessor: Drop {
    /// The keys of a row.
    ghost keys_of: { Self → List Cell → List Key };

    /// Whether the rows of these columns have what the keys are made of.
    ghost fits_to: { Self → List Column → Bool };

    /// The kind of every key.
    ghost kind_of: { Self → KeyKind };

    /// Whether a row may have any number of keys, up to 64, in place of one.
    ghost gives_many: { Self → Bool };

    /// Whether it may be used on the rows of a schema.
    fn fits(&self, schema: &Schema) -> bool
        ensures { result ≡ fits_to self.now schema.now };

    /// The kind of its keys.
    fn kind(&self) -> KeyKind
        ensures { result ≡ kind_of self.now };

    /// Whether it is an array accessor: a row may have no key or several, and else it has one.
    fn is_array(&self) -> bool
        ensures { result ≡ gives_many self.now };

    /// The keys of a row, ascending and distinct. Only want of memory is an error.
    fn keys(&self, alloc: Global, row: &Row) -> Result<KeyList, OutOfMemory>
        ensures { IfOk result (λ keys. keys ≡ keys_of self.now row.now) };

    /// The keys of a row of a schema that it fits are keys of its kind.
    ghost lawful: { (a : Self) (columns : List Column) (row : List Cell) → fits_to a columns ≡ true → IsRowOf columns row → AreKeysOf (kind_of a) (gives_many a) (keys_of a row) };
}
