//! The count of rows.
use crate::part::Part;
use std::alloc::Global;
use xf_base::{OutOfMemory, Row, Schema};

/// How many rows there are: one field.
#[derive(Clone, Copy, Debug, PartialEq, Eq)]
pub struct Count;

impl Part for Count {
    ghost use Rattle.std.specs.Prelude.{pos, true, ⊤};
    ghost use Rattle.xf_model.specs.Group.{count};
    ghost use Rattle.xf_reduce.specs.Stock.{count_less};
    ghost use Rattle.xf_reduce.specs.StockLaws.{one_is_few, count_swaps, count_takes_back, count_within};

    type Value = u64;

    type Meaning = u64;

    ghost meaning_of = { λ value. value };

    ghost folding = { λ _. count };

    ghost undo = { λ _. count_less };

    ghost rank_of = { λ _ meaning field. pos meaning };

    ghost field_count = { λ _. 1 };

    ghost fits_to = { λ _ columns. true };

    ghost IsReady = { λ _ value row. ⊤ };

    ghost few_fields = { λ _. one_is_few };

    ghost swaps = { λ _. count_swaps };

    ghost takes_back = { λ _. count_takes_back };

    ghost ranks_within = { λ _. count_within };

    fn copy(&self, _alloc: Global) -> Result<Count, OutOfMemory> {
        Ok(*self)
    }

    fn fits(&self, _schema: &Schema) -> bool {
        true
    }

    fn fields(&self) -> u8 {
        1
    }

    fn initial(&self, _alloc: Global) -> Result<u64, OutOfMemory> {
        Ok(0)
    }

    fn prepare(&self, _value: &mut u64, _row: &Row) -> Result<(), OutOfMemory> {
        Ok(())
    }

    fn add(&self, value: &mut u64, _row: &Row) {
        *value += 1;
    }

    fn remove(&self, value: &mut u64, _row: &Row) {
        *value -= 1;
    }

    fn rank(&self, value: &u64, _field: u8) -> i128 {
        i128::from(*value)
    }
}
