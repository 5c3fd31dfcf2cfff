//! The sum of the squares of a column, with the sum and the count of rows.
use crate::number::{fits_at, number_at};
use crate::part::Part;
use crate::sum_count::{SumCount, Totals};
use std::alloc::Global;
use xf_base::{OutOfMemory, Row, Schema};

/// A sum of squares, up to 10^36 over a million rows, with the totals of the numbers.
#[derive(Clone, Copy, Debug, PartialEq, Eq)]
pub struct SquareTotals {
    pub squares: i128,
    pub totals: Totals,
}

/// The sum of the squares of the column of numbers at a place, the sum and the count of rows: three fields. Squares have
/// twice the decimals of the column.
#[derive(Clone, Copy, Debug, PartialEq, Eq)]
pub struct SumSquares(pub usize);

impl Part for SumSquares {
    ghost use Rattle.std.specs.Prelude.{⊤};
    ghost use Rattle.xf_reduce.specs.Number.{fits_at};
    ghost use Rattle.xf_reduce.specs.Stock.{squares_field, squares_less, squares_of};
    ghost use Rattle.xf_reduce.specs.StockLaws.{three_are_few, squares_swap, squares_take_back, squares_within};

    type Value = SquareTotals;

    type Meaning = SquareTotals;

    ghost meaning_of = { λ value. value };

    ghost folding = { λ part. squares_of part.0 };

    ghost undo = { λ part. squares_less part.0 };

    ghost rank_of = { λ _. squares_field };

    ghost field_count = { λ _. 3 };

    ghost fits_to = { λ part. fits_at part.0 };

    ghost IsReady = { λ _ value row. ⊤ };

    ghost few_fields = { λ _. three_are_few };

    ghost swaps = { λ part. squares_swap part.0 };

    ghost takes_back = { λ part. squares_take_back part.0 };

    ghost ranks_within = { λ part. squares_within part.0 };

    fn copy(&self, _alloc: Global) -> Result<SumSquares, OutOfMemory> {
        Ok(*self)
    }

    fn fits(&self, schema: &Schema) -> bool {
        fits_at(schema.as_slice(), self.0)
    }

    fn fields(&self) -> u8 {
        3
    }

    fn initial(&self, alloc: Global) -> Result<SquareTotals, OutOfMemory> {
        Ok(SquareTotals {
            squares: 0,
            totals: SumCount(self.0).initial(alloc)?,
        })
    }

    fn prepare(&self, _value: &mut SquareTotals, _row: &Row) -> Result<(), OutOfMemory> {
        Ok(())
    }

    fn add(&self, value: &mut SquareTotals, row: &Row) {
        let number = i128::from(number_at(row, self.0));
        value.squares += number * number;
        SumCount(self.0).add(&mut value.totals, row);
    }

    fn remove(&self, value: &mut SquareTotals, row: &Row) {
        let number = i128::from(number_at(row, self.0));
        value.squares -= number * number;
        SumCount(self.0).remove(&mut value.totals, row);
    }

    fn rank(&self, value: &SquareTotals, field: u8) -> i128 {
        match field {
            0 => value.squares,
            1 => value.totals.sum,
            _ => i128::from(value.totals.count),
        }
    }
}
