//! Parts: what a reducer is made of.
ghost use Rattle.std.specs.Prelude.{◌≡◌, ◌<◌, ◌≤◌, ℕ, ℤ, Bool, List, IfOk, OnOk};
ghost use Rattle.xf_base.specs.declared.cell.Cell.{Cell};
ghost use Rattle.xf_base.specs.declared.column.Column.{Column};
ghost use Rattle.xf_model.specs.Group as model;
ghost use Rattle.xf_reduce.specs.Laws.{IsFoldBefore, IsFoldWith, RanksWithin, StaysReady, Suits, Swaps, TakesBack};

use std::alloc::Global;
use xf_base::{OutOfMemory, Row, Schema};

/// What a reducer keeps of its rows, or one of the two things that it keeps. Any type that proves the laws may be one.
/// It is like a [`Reducer`](crate::Reducer), and `Alone` and `Both` make reducers of parts; it counts no steps.
pub trait Part: Drop {
    /// What is kept.
    type Value: Drop;

    /// What that means: plain data, which no call makes.
    type Meaning;

    /// The meaning of a value.
    ghost meaning_of: { Self.Value → Self.Meaning };

    /// What no rows mean, and what one row more makes of a meaning.
    ghost folding: { Self → model.Reducer (List Cell) Self.Meaning };

    /// What a meaning is without a row.
    ghost undo: { Self → Self.Meaning → List Cell → Self.Meaning };

    /// The number in a field.
    ghost rank_of: { Self → Self.Meaning → ℕ → ℤ };

    /// How many fields there are.
    ghost field_count: { Self → ℕ };

    /// Whether the rows of these columns have what is reduced.
    ghost fits_to: { Self → List Column → Bool };

    /// Whether a row may come or go without memory.
    ghost IsReady: { Self → Self.Value → List Cell → Type 0 };

    /// The same part once more. Only want of memory is an error.
    fn copy(&self, alloc: Global) -> Result<Self, OutOfMemory>
    where
        Self: Sized,
        ensures { IfOk result (λ copy. copy ≡ self.now) };

    /// Whether it may be used on the rows of a schema.
    fn fits(&self, schema: &Schema) -> bool
        ensures { result ≡ fits_to self.now schema.now };

    /// The number of fields, from 1 to 100.
    fn fields(&self) -> u8
        ensures { result ≡ field_count self.now };

    /// The value of no rows. Only want of memory is an error.
    fn initial(&self, alloc: Global) -> Result<Self::Value, OutOfMemory>
        ensures { IfOk result (λ value. meaning_of value ≡ (folding self.now).initial) };

    /// Makes a value ready for a row, so that the row may come and go without memory. The value means what it meant, and
    /// stays ready for each row for which it was, without memory too.
    fn prepare(&self, value: &mut Self::Value, row: &Row) -> Result<(), OutOfMemory>
        requires { Suits (fits_to self.now) row.now }
        ensures ready { OnOk result (IsReady self.now value.new row.now) }
        ensures meaning { meaning_of value.new ≡ meaning_of value.old }
        ensures kept { StaysReady (IsReady self.now) value.old value.new };

    /// One row more. The value must be ready for it, and mean the fold of fewer rows than a million. It takes no memory.
    fn add(&self, value: &mut Self::Value, row: &Row)
        requires folded { IsFoldBefore (fits_to self.now) (folding self.now) (meaning_of value.old) row.now }
        requires ready { IsReady self.now value.old row.now }
        ensures meaning { meaning_of value.new ≡ (folding self.now).step (meaning_of value.old) row.now }
        ensures kept { StaysReady (IsReady self.now) value.old value.new };

    /// One row less. The value must be ready for it, and mean the fold of at most a million rows of which it is one. It
    /// takes no memory.
    fn remove(&self, value: &mut Self::Value, row: &Row)
        requires folded { IsFoldWith (fits_to self.now) (folding self.now) (meaning_of value.old) row.now }
        requires ready { IsReady self.now value.old row.now }
        ensures meaning { meaning_of value.new ≡ undo self.now (meaning_of value.old) row.now }
        ensures kept { StaysReady (IsReady self.now) value.old value.new };

    /// The number in a field below `fields`, in units of the last of the field's decimals. Of a fold of at most a million
    /// rows it lies within -10^36 to 10^36. It takes no memory.
    fn rank(&self, value: &Self::Value, field: u8) -> i128
        requires { field < field_count self.now }
        ensures { result ≡ rank_of self.now (meaning_of value.now) field };

    /// It has a field, and at most 100.
    ghost few_fields: { (r : Self) → (1 ≤ field_count r) × (field_count r ≤ 100) };

    /// Two rows change a value alike in either order.
    ghost swaps: { (r : Self) → Swaps (fits_to r) (folding r) };

    /// A row that was added can be taken back.
    ghost takes_back: { (r : Self) → TakesBack (fits_to r) (folding r) (undo r) };

    /// Each field of at most a million rows lies within -10^36 to 10^36.
    ghost ranks_within: { (r : Self) → RanksWithin (fits_to r) (folding r) (rank_of r) (field_count r) };
}
