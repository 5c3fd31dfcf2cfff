//! Two parts as a reducer.
use crate::part::Part;
use crate::reducer::Reducer;
use std::alloc::Global;
use std::sync::ledger::Ledger;
use xf_base::{OutOfMemory, Row, Schema, Steps};

/// The reducer that keeps two parts: the fields of the first, then those of the second.
#[derive(Clone, Copy, Debug, PartialEq, Eq)]
pub struct Both<A, B>(pub A, pub B);

impl<A: Part, B: Part> Reducer for Both<A, B> {
    ghost use Rattle.std.specs.Prelude.{◌+◌, ◌&&◌, None};
    ghost use Rattle.xf_reduce.specs.Pairs.{both_field, both_less, both_of};
    ghost use Rattle.xf_reduce.specs.PairLaws.{both_few, both_swap, both_take_back, both_within};

    type Value = (A::Value, B::Value);

    type Meaning = (A::Meaning, B::Meaning);

    ghost meaning_of = { λ value. (A.meaning_of value.0, B.meaning_of value.1) };

    ghost folding = { λ both. both_of (A.folding both.0) (B.folding both.1) };

    ghost undo = { λ both. both_less (A.undo both.0) (B.undo both.1) };

    ghost rank_of = { λ both. both_field (A.field_count both.0) (A.rank_of both.0) (B.rank_of both.1) };

    ghost field_count = { λ both. A.field_count both.0 + B.field_count both.1 };

    ghost fits_to = { λ both columns. A.fits_to both.0 columns && B.fits_to both.1 columns };

    ghost IsReady = { λ both value row. A.IsReady both.0 value.0 row × B.IsReady both.1 value.1 row };

    ghost calls = { None };

    ghost few_fields = { λ both. both_few (A.few_fields both.0) (B.few_fields both.1) };

    ghost swaps = { λ both. both_swap (A.folding both.0) (B.folding both.1) (A.swaps both.0) (B.swaps both.1) };

    ghost takes_back = { λ both. both_take_back (A.folding both.0) (B.folding both.1) (A.undo both.0) (B.undo both.1) (A.takes_back both.0) (B.takes_back both.1) };

    ghost ranks_within = { λ both. both_within (A.folding both.0) (B.folding both.1) (A.rank_of both.0) (B.rank_of both.1) (A.ranks_within both.0) (B.ranks_within both.1) };

    fn copy(&self, alloc: Global) -> Result<Both<A, B>, OutOfMemory> {
        let first = self.0.copy(alloc)?;
        Ok(Both(first, self.1.copy(alloc)?))
    }

    fn fits(&self, schema: &Schema) -> bool {
        self.0.fits(schema) && self.1.fits(schema)
    }

    fn fields(&self) -> u8 {
        self.0.fields() + self.1.fields()
    }

    fn initial(&self, alloc: Global) -> Result<(A::Value, B::Value), OutOfMemory> {
        let first = self.0.initial(alloc)?;
        Ok((first, self.1.initial(alloc)?))
    }

    fn prepare(&self, value: &mut (A::Value, B::Value), row: &Row) -> Result<(), OutOfMemory> {
        self.0.prepare(&mut value.0, row)?;
        self.1.prepare(&mut value.1, row)
    }

    fn add<L: Ledger>(&self, value: &mut (A::Value, B::Value), row: &Row, steps: &mut Steps<L>) {
        steps.tick();
        self.0.add(&mut value.0, row);
        self.1.add(&mut value.1, row);
    }

    fn remove<L: Ledger>(&self, value: &mut (A::Value, B::Value), row: &Row, steps: &mut Steps<L>) {
        steps.tick();
        self.0.remove(&mut value.0, row);
        self.1.remove(&mut value.1, row);
    }

    fn rank(&self, value: &(A::Value, B::Value), field: u8) -> i128 {
        let fields = self.0.fields();
        if field < fields {
            self.0.rank(&value.0, field)
        } else {
            self.1.rank(&value.1, field - fields)
        }
    }
}
