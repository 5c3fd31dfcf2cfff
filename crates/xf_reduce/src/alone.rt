//! One part as a reducer.
use crate::part::Part;
use crate::reducer::Reducer;
use std::alloc::Global;
use std::sync::ledger::Ledger;
use xf_base::{OutOfMemory, Row, Schema, Steps};

/// The reducer that keeps one part.
#[derive(Clone, Copy, Debug, PartialEq, Eq)]
pub struct Alone<A>(pub A);

impl<A: Part> Reducer for Alone<A> {
    ghost use Rattle.std.specs.Prelude.{None};
    ghost use Rattle.xf_reduce.specs.PairLaws.{alone_few};

    type Value = A::Value;

    type Meaning = A::Meaning;

    ghost meaning_of = { A.meaning_of };

    ghost folding = { λ alone. A.folding alone.0 };

    ghost undo = { λ alone. A.undo alone.0 };

    ghost rank_of = { λ alone. A.rank_of alone.0 };

    ghost field_count = { λ alone. A.field_count alone.0 };

    ghost fits_to = { λ alone. A.fits_to alone.0 };

    ghost IsReady = { λ alone. A.IsReady alone.0 };

    ghost calls = { None };

    ghost few_fields = { λ alone. alone_few (A.few_fields alone.0) };

    ghost swaps = { λ alone. A.swaps alone.0 };

    ghost takes_back = { λ alone. A.takes_back alone.0 };

    ghost ranks_within = { λ alone. A.ranks_within alone.0 };

    fn copy(&self, alloc: Global) -> Result<Alone<A>, OutOfMemory> {
        Ok(Alone(self.0.copy(alloc)?))
    }

    fn fits(&self, schema: &Schema) -> bool {
        self.0.fits(schema)
    }

    fn fields(&self) -> u8 {
        self.0.fields()
    }

    fn initial(&self, alloc: Global) -> Result<A::Value, OutOfMemory> {
        self.0.initial(alloc)
    }

    fn prepare(&self, value: &mut A::Value, row: &Row) -> Result<(), OutOfMemory> {
        self.0.prepare(value, row)
    }

    fn add<L: Ledger>(&self, value: &mut A::Value, row: &Row, steps: &mut Steps<L>) {
        steps.tick();
        self.0.add(value, row);
    }

    fn remove<L: Ledger>(&self, value: &mut A::Value, row: &Row, steps: &mut Steps<L>) {
        steps.tick();
        self.0.remove(value, row);
    }

    fn rank(&self, value: &A::Value, field: u8) -> i128 {
        self.0.rank(value, field)
    }
}
