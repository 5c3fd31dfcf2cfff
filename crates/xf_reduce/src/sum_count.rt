//! The sum of a column, with the count of rows and the mean.
use crate::number::{fits_at, number_at};
use crate::part::Part;
use std::alloc::Global;
use xf_base::{OutOfMemory, Row, Schema};

/// A sum, within -10^21 to 10^21 over a million rows, and how many numbers are in it.
#[derive(Clone, Copy, Debug, PartialEq, Eq)]
pub struct Totals {
    pub sum: i128,
    pub count: u64,
}

impl Totals {
    ghost use Rattle.std.specs.Prelude.{◌≡◌};
    ghost use Rattle.xf_reduce.specs.Stock.{mean};

    /// The sum divided by the count, rounded down, and 0 where nothing is counted.
    pub fn mean(&self) -> i128
        ensures { result ≡ mean self.now }
    {
        if self.count == 0 {
            0
        } else {
            self.sum.div_euclid(i128::from(self.count))
        }
    }
}

/// The sum of the column of numbers at a place, the count of rows and the mean, rounded down: three fields. Sum and mean
/// are in units of the column's last decimal.
#[derive(Clone, Copy, Debug, PartialEq, Eq)]
pub struct SumCount(pub usize);

impl Part for SumCount {
    ghost use Rattle.std.specs.Prelude.{⊤};
    ghost use Rattle.xf_reduce.specs.Number.{fits_at};
    ghost use Rattle.xf_reduce.specs.Stock.{totals_field, totals_less, totals_of};
    ghost use Rattle.xf_reduce.specs.StockLaws.{three_are_few, totals_swaps, totals_take_back, totals_within};

    type Value = Totals;

    type Meaning = Totals;

    ghost meaning_of = { λ value. value };

    ghost folding = { λ part. totals_of part.0 };

    ghost undo = { λ part. totals_less part.0 };

    ghost rank_of = { λ _. totals_field };

    ghost field_count = { λ _. 3 };

    ghost fits_to = { λ part. fits_at part.0 };

    ghost IsReady = { λ _ value row. ⊤ };

    ghost few_fields = { λ _. three_are_few };

    ghost swaps = { λ part. totals_swaps part.0 };

    ghost takes_back = { λ part. totals_take_back part.0 };

    ghost ranks_within = { λ part. totals_within part.0 };

    fn copy(&self, _alloc: Global) -> Result<SumCount, OutOfMemory> {
        Ok(*self)
    }

    fn fits(&self, schema: &Schema) -> bool {
        fits_at(schema.as_slice(), self.0)
    }

    fn fields(&self) -> u8 {
        3
    }

    fn initial(&self, _alloc: Global) -> Result<Totals, OutOfMemory> {
        Ok(Totals { sum: 0, count: 0 })
    }

    fn prepare(&self, _value: &mut Totals, _row: &Row) -> Result<(), OutOfMemory> {
        Ok(())
    }

    fn add(&self, value: &mut Totals, row: &Row) {
        value.sum += i128::from(number_at(row, self.0));
        value.count += 1;
    }

    fn remove(&self, value: &mut Totals, row: &Row) {
        value.sum -= i128::from(number_at(row, self.0));
        value.count -= 1;
    }

    fn rank(&self, value: &Totals, field: u8) -> i128 {
        match field {
            0 => value.sum,
            1 => i128::from(value.count),
            _ => value.mean(),
        }
    }
}
