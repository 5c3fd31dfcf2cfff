//! The spread of a column: how many numbers differ, the least, the greatest and the median.
use crate::number::{fits_at, number_at};
use crate::part::Part;
use crate::tallies::Tallies;
use std::alloc::Global;
use xf_base::{ListOf, OutOfMemory, Row, Schema};

/// How many numbers of the column at a place differ, the least, the greatest and the median: four fields, each 0 over no
/// rows. Of two numbers in the middle the median is the lower. But for the first, they are in units of the column's last
/// decimal.
#[derive(Clone, Copy, Debug, PartialEq, Eq)]
pub struct Spread(pub usize);

impl Part for Spread {
    ghost use Rattle.xf_reduce.specs.Number.{fits_at, number_at};
    ghost use Rattle.xf_reduce.specs.Stock.{numbers_field, numbers_less, numbers_of};
    ghost use Rattle.xf_reduce.specs.NumbersLaws.{numbers_few, numbers_swap, numbers_take_back, numbers_within};
    ghost use Rattle.xf_reduce.specs.Tallies.{HasTally, numbers_in};

    type Value = Tallies;

    type Meaning = ListOf<i64>;

    ghost meaning_of = { numbers_in };

    ghost folding = { λ part. numbers_of part.0 };

    ghost undo = { λ part. numbers_less part.0 };

    ghost rank_of = { λ _. numbers_field };

    ghost field_count = { λ _. 4 };

    ghost fits_to = { λ part. fits_at part.0 };

    ghost IsReady = { λ part value row. HasTally value (number_at part.0 row) };

    ghost few_fields = { λ _. numbers_few };

    ghost swaps = { λ part. numbers_swap part.0 };

    ghost takes_back = { λ part. numbers_take_back part.0 };

    ghost ranks_within = { λ part. numbers_within part.0 };

    fn copy(&self, _alloc: Global) -> Result<Spread, OutOfMemory> {
        Ok(*self)
    }

    fn fits(&self, schema: &Schema) -> bool {
        fits_at(schema.as_slice(), self.0)
    }

    fn fields(&self) -> u8 {
        4
    }

    fn initial(&self, alloc: Global) -> Result<Tallies, OutOfMemory> {
        Ok(Tallies::new(alloc))
    }

    fn prepare(&self, value: &mut Tallies, row: &Row) -> Result<(), OutOfMemory> {
        value.enter(number_at(row, self.0))
    }

    fn add(&self, value: &mut Tallies, row: &Row) {
        value.add(number_at(row, self.0));
    }

    fn remove(&self, value: &mut Tallies, row: &Row) {
        value.remove(number_at(row, self.0));
    }

    fn rank(&self, value: &Tallies, field: u8) -> i128 {
        match field {
            0 => i128::from(value.distinct()),
            1 => i128::from(value.least()),
            2 => i128::from(value.greatest()),
            _ => i128::from(value.median()),
        }
    }
}
