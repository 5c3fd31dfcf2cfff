//! Any part of the stock.
use crate::count::Count;
use crate::part::Part;
use crate::spread::Spread;
use crate::sum::Sum;
use crate::sum_count::{SumCount, Totals};
use crate::sum_squares::{SquareTotals, SumSquares};
use crate::tallies::Tallies;
use std::alloc::Global;
use xf_base::{ListOf, OutOfMemory, Row, Schema};

/// A part of the stock: what a board and a session may name. Places of columns count from 0.
#[derive(Clone, Copy, Debug, PartialEq, Eq)]
pub enum Simple {
    /// How many rows there are.
    Count,
    /// The sum of a column.
    Sum(usize),
    /// The sum of a column, the count and the mean.
    SumCount(usize),
    /// The sum of the squares of a column, the sum and the count.
    SumSquares(usize),
    /// How many numbers of a column differ, the least, the greatest and the median.
    Spread(usize),
}

/// What any of the parts keeps. Each part changes only what it keeps itself; one struct serves all, so that no value is of
/// another part than its reducer.
#[derive(Drop)]
pub struct SimpleValue {
    /// The sums and the count.
    pub squares: SquareTotals,
    /// The numbers of a spread.
    pub numbers: Tallies,
}

/// The meaning of a `SimpleValue`.
#[derive(Drop)]
pub struct SimpleMeaning {
    /// The sums and the count.
    pub squares: SquareTotals,
    /// The numbers of a spread, ascending.
    pub numbers: ListOf<i64>,
}

impl Part for Simple {
    ghost use Rattle.xf_reduce.specs.Simple.{simple_field, simple_field_count, simple_fits, simple_less, simple_of};
    ghost use Rattle.xf_reduce.specs.SimpleReady.{IsSimpleReady, simple_meaning};
    ghost use Rattle.xf_reduce.specs.SimpleLaws.{simple_few, simple_swaps, simple_takes_back, simple_within};

    type Value = SimpleValue;

    type Meaning = SimpleMeaning;

    ghost meaning_of = { simple_meaning };

    ghost folding = { simple_of };

    ghost undo = { simple_less };

    ghost rank_of = { simple_field };

    ghost field_count = { simple_field_count };

    ghost fits_to = { simple_fits };

    ghost IsReady = { IsSimpleReady };

    ghost few_fields = { simple_few };

    ghost swaps = { simple_swaps };

    ghost takes_back = { simple_takes_back };

    ghost ranks_within = { simple_within };

    fn copy(&self, _alloc: Global) -> Result<Simple, OutOfMemory> {
        Ok(*self)
    }

    fn fits(&self, schema: &Schema) -> bool {
        match self {
            Simple::Count => Count.fits(schema),
            Simple::Sum(place) => Sum(*place).fits(schema),
            Simple::SumCount(place) => SumCount(*place).fits(schema),
            Simple::SumSquares(place) => SumSquares(*place).fits(schema),
            Simple::Spread(place) => Spread(*place).fits(schema),
        }
    }

    fn fields(&self) -> u8 {
        match self {
            Simple::Count => Count.fields(),
            Simple::Sum(place) => Sum(*place).fields(),
            Simple::SumCount(place) => SumCount(*place).fields(),
            Simple::SumSquares(place) => SumSquares(*place).fields(),
            Simple::Spread(place) => Spread(*place).fields(),
        }
    }

    fn initial(&self, alloc: Global) -> Result<SimpleValue, OutOfMemory> {
        Ok(SimpleValue {
            squares: SquareTotals {
                squares: 0,
                totals: Totals { sum: 0, count: 0 },
            },
            numbers: Tallies::new(alloc),
        })
    }

    fn prepare(&self, value: &mut SimpleValue, row: &Row) -> Result<(), OutOfMemory> {
        match self {
            Simple::Spread(place) => Spread(*place).prepare(&mut value.numbers, row),
            _ => Ok(()),
        }
    }

    fn add(&self, value: &mut SimpleValue, row: &Row) {
        match self {
            Simple::Count => Count.add(&mut value.squares.totals.count, row),
            Simple::Sum(place) => Sum(*place).add(&mut value.squares.totals.sum, row),
            Simple::SumCount(place) => SumCount(*place).add(&mut value.squares.totals, row),
            Simple::SumSquares(place) => SumSquares(*place).add(&mut value.squares, row),
            Simple::Spread(place) => Spread(*place).add(&mut value.numbers, row),
        }
    }

    fn remove(&self, value: &mut SimpleValue, row: &Row) {
        match self {
            Simple::Count => Count.remove(&mut value.squares.totals.count, row),
            Simple::Sum(place) => Sum(*place).remove(&mut value.squares.totals.sum, row),
            Simple::SumCount(place) => SumCount(*place).remove(&mut value.squares.totals, row),
            Simple::SumSquares(place) => SumSquares(*place).remove(&mut value.squares, row),
            Simple::Spread(place) => Spread(*place).remove(&mut value.numbers, row),
        }
    }

    fn rank(&self, value: &SimpleValue, field: u8) -> i128 {
        match self {
            Simple::Count => Count.rank(&value.squares.totals.count, field),
            Simple::Sum(place) => Sum(*place).rank(&value.squares.totals.sum, field),
            Simple::SumCount(place) => SumCount(*place).rank(&value.squares.totals, field),
            Simple::SumSquares(place) => SumSquares(*place).rank(&value.squares, field),
            Simple::Spread(place) => Spread(*place).rank(&value.numbers, field),
        }
    }
}
