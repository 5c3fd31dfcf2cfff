//! The sum of a column.
use crate::number::{fits_at, number_at};
use crate::part::Part;
use std::alloc::Global;
use xf_base::{OutOfMemory, Row, Schema};

/// The sum of the column of numbers at a place: one field, in units of the column's last decimal.
#[derive(Clone, Copy, Debug, PartialEq, Eq)]
pub struct Sum(pub usize);

impl Part for Sum {
    ghost use Rattle.std.specs.Prelude.{⊤};
    ghost use Rattle.xf_reduce.specs.Number.{fits_at};
    ghost use Rattle.xf_reduce.specs.Stock.{sum_less, sum_of};
    ghost use Rattle.xf_reduce.specs.StockLaws.{one_is_few, sum_swaps, sum_takes_back, sum_within};

    type Value = i128;

    type Meaning = i128;

    ghost meaning_of = { λ value. value };

    ghost folding = { λ sum. sum_of sum.0 };

    ghost undo = { λ sum. sum_less sum.0 };

    ghost rank_of = { λ _ meaning field. meaning };

    ghost field_count = { λ _. 1 };

    ghost fits_to = { λ sum. fits_at sum.0 };

    ghost IsReady = { λ _ value row. ⊤ };

    ghost few_fields = { λ _. one_is_few };

    ghost swaps = { λ sum. sum_swaps sum.0 };

    ghost takes_back = { λ sum. sum_takes_back sum.0 };

    ghost ranks_within = { λ sum. sum_within sum.0 };

    fn copy(&self, _alloc: Global) -> Result<Sum, OutOfMemory> {
        Ok(*self)
    }

    fn fits(&self, schema: &Schema) -> bool {
        fits_at(schema.as_slice(), self.0)
    }

    fn fields(&self) -> u8 {
        1
    }

    fn initial(&self, _alloc: Global) -> Result<i128, OutOfMemory> {
        Ok(0)
    }

    fn prepare(&self, _value: &mut i128, _row: &Row) -> Result<(), OutOfMemory> {
        Ok(())
    }

    fn add(&self, value: &mut i128, row: &Row) {
        *value += i128::from(number_at(row, self.0));
    }

    fn remove(&self, value: &mut i128, row: &Row) {
        *value -= i128::from(number_at(row, self.0));
    }

    fn rank(&self, value: &i128, _field: u8) -> i128 {
        *value
    }
}
