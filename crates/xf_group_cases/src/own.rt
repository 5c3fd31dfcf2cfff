//! A reducer of one's own: what a type proves so that groups take it.
ghost use Rattle.std.specs.Prelude.{◌≡◌};

use std::alloc::Global;
use std::sync::ledger::Ledger;
use xf_base::{Cell, ColumnKind, OutOfMemory, Row, Schema, Steps};
use xf_reduce::Reducer;

/// How many rows have an even number in the first column: one field.
#[derive(Clone, Copy)]
pub struct Evens;

impl Evens {
    ghost use Rattle.xf_group_cases.specs.Own.{even_first};

    /// 1 for a row that counts, and 0 for another.
    pub fn count_of(row: &Row) -> u64
        ensures { result ≡ even_first row.now }
    {
        match row.at(0) {
            Some(Cell::Num(number)) => u64::from(number.rem_euclid(2) == 0),
            _ => 0,
        }
    }
}

impl Reducer for Evens {
    ghost use Rattle.std.specs.Prelude.{None, pos, ⊤};
    ghost use Rattle.xf_reduce.specs.Number.{fits_at};
    ghost use Rattle.xf_group_cases.specs.Own.{evens, evens_few, evens_less, evens_swap, evens_take_back, evens_within};

    type Value = u64;

    type Meaning = u64;

    ghost meaning_of = { λ value. value };

    ghost folding = { λ _. evens };

    ghost undo = { λ _. evens_less };

    ghost rank_of = { λ _ meaning field. pos meaning };

    ghost field_count = { λ _. 1 };

    ghost fits_to = { λ _. fits_at 0 };

    ghost IsReady = { λ _ value row. ⊤ };

    ghost calls = { None };

    ghost few_fields = { λ _. evens_few };

    ghost swaps = { λ _. evens_swap };

    ghost takes_back = { λ _. evens_take_back };

    ghost ranks_within = { λ _. evens_within };

    fn copy(&self, _alloc: Global) -> Result<Evens, OutOfMemory> {
        Ok(Evens)
    }

    fn fits(&self, schema: &Schema) -> bool {
        match schema.as_slice().first() {
            Some(column) => matches!(column.kind, ColumnKind::Int | ColumnKind::Fixed(_)),
            None => false,
        }
    }

    fn fields(&self) -> u8 {
        1
    }

    fn initial(&self, _alloc: Global) -> Result<u64, OutOfMemory> {
        Ok(0)
    }

    fn prepare(&self, _value: &mut u64, _row: &Row) -> Result<(), OutOfMemory> {
        Ok(())
    }

    fn add<L: Ledger>(&self, value: &mut u64, row: &Row, steps: &mut Steps<L>) {
        steps.tick();
        *value += Evens::count_of(row);
    }

    fn remove<L: Ledger>(&self, value: &mut u64, row: &Row, steps: &mut Steps<L>) {
        steps.tick();
        *value -= Evens::count_of(row);
    }

    fn rank(&self, value: &u64, _field: u8) -> i128 {
        i128::from(*value)
    }
}
