//! The stock of reducers.
ghost use Rattle.std.specs.Prelude.{◌≡◌, ◌≤◌, true, slice_get};
ghost use Rattle.xf_reduce.specs.StockReducer.{column_decimals, simple_decimals};

use crate::alone::Alone;
use crate::both::Both;
use crate::part::Part;
use crate::reducer::Reducer;
use crate::simple::{Simple, SimpleMeaning, SimpleValue};
use std::alloc::Global;
use std::sync::ledger::Ledger;
use xf_base::{ColumnKind, OutOfMemory, Row, Schema, Steps};

/// A reducer of the stock: one part, or two side by side, with the fields of the first before those of the second. Its
/// value is a pair in both cases, of which one part alone leaves the second as it was.
#[derive(Clone, Copy, Debug, PartialEq, Eq)]
pub enum StockReducer {
    /// One part.
    One(Simple),
    /// Two parts, each of which sees every row.
    Two(Simple, Simple),
}

impl StockReducer {
    ghost use Rattle.std.specs.Prelude.{◌<◌};
    ghost use Rattle.xf_reduce.specs.StockReducer.{stock_decimals, stock_field_count, stock_fits};

    /// How many decimals a field has: those of its column, none for a count, and twice those of the column for squares.
    pub fn decimals(&self, schema: &Schema, field: u8) -> u8
        requires fits { stock_fits self.now schema.now ≡ true }
        requires field { field < stock_field_count self.now }
        ensures { result ≡ stock_decimals self.now schema.now field }
    {
        match self {
            StockReducer::One(part) => part_decimals(*part, schema, field),
            StockReducer::Two(first, second) => {
                let fields = first.fields();
                if field < fields {
                    part_decimals(*first, schema, field)
                } else {
                    part_decimals(*second, schema, field - fields)
                }
            }
        }
    }
}

/// How many decimals a field of a part has.
fn part_decimals(part: Simple, schema: &Schema, field: u8) -> u8
    ensures { result ≡ simple_decimals part schema.now field }
{
    match (part, field) {
        (Simple::Count, _) | (Simple::SumCount(_), 1) | (Simple::Spread(_), 0) => 0,
        (Simple::SumSquares(place), 0) => 2 * column_decimals(schema, place),
        (Simple::SumSquares(place), 1) => column_decimals(schema, place),
        (Simple::SumSquares(_), _) => 0,
        (Simple::Sum(place) | Simple::SumCount(place) | Simple::Spread(place), _) => {
            column_decimals(schema, place)
        }
    }
}

/// The decimals of the column at a place, of which there are 9 at most.
fn column_decimals(schema: &Schema, place: usize) -> u8
    ensures decimals { result ≡ column_decimals (slice_get schema.now place) }
    ensures few { result ≤ 9 }
{
    match schema.as_slice().get(place) {
        Some(column) => match column.kind {
            ColumnKind::Fixed(decimals) => decimals,
            _ => 0,
        },
        None => 0,
    }
}

impl Reducer for StockReducer {
    ghost use Rattle.std.specs.Prelude.{None};
    ghost use Rattle.xf_reduce.specs.StockReducer.{IsStockReady, stock_field, stock_field_count, stock_fits, stock_less, stock_meaning, stock_of};
    ghost use Rattle.xf_reduce.specs.StockReducerLaws.{stock_few, stock_swaps, stock_takes_back, stock_within};

    type Value = (SimpleValue, SimpleValue);

    type Meaning = (SimpleMeaning, SimpleMeaning);

    ghost meaning_of = { stock_meaning };

    ghost folding = { stock_of };

    ghost undo = { stock_less };

    ghost rank_of = { stock_field };

    ghost field_count = { stock_field_count };

    ghost fits_to = { stock_fits };

    ghost IsReady = { IsStockReady };

    ghost calls = { None };

    ghost few_fields = { stock_few };

    ghost swaps = { stock_swaps };

    ghost takes_back = { stock_takes_back };

    ghost ranks_within = { stock_within };

    fn copy(&self, _alloc: Global) -> Result<StockReducer, OutOfMemory> {
        Ok(*self)
    }

    fn fits(&self, schema: &Schema) -> bool {
        match self {
            StockReducer::One(part) => Alone(*part).fits(schema),
            StockReducer::Two(first, second) => Both(*first, *second).fits(schema),
        }
    }

    fn fields(&self) -> u8 {
        match self {
            StockReducer::One(part) => Alone(*part).fields(),
            StockReducer::Two(first, second) => Both(*first, *second).fields(),
        }
    }

    fn initial(&self, alloc: Global) -> Result<(SimpleValue, SimpleValue), OutOfMemory> {
        Both(Simple::Count, Simple::Count).initial(alloc)
    }

    fn prepare(
        &self,
        value: &mut (SimpleValue, SimpleValue),
        row: &Row,
    ) -> Result<(), OutOfMemory> {
        match self {
            StockReducer::One(part) => Alone(*part).prepare(&mut value.0, row),
            StockReducer::Two(first, second) => Both(*first, *second).prepare(value, row),
        }
    }

    fn add<L: Ledger>(
        &self,
        value: &mut (SimpleValue, SimpleValue),
        row: &Row,
        steps: &mut Steps<L>,
    ) {
        match self {
            StockReducer::One(part) => Alone(*part).add(&mut value.0, row, steps),
            StockReducer::Two(first, second) => Both(*first, *second).add(value, row, steps),
        }
    }

    fn remove<L: Ledger>(
        &self,
        value: &mut (SimpleValue, SimpleValue),
        row: &Row,
        steps: &mut Steps<L>,
    ) {
        match self {
            StockReducer::One(part) => Alone(*part).remove(&mut value.0, row, steps),
            StockReducer::Two(first, second) => Both(*first, *second).remove(value, row, steps),
        }
    }

    fn rank(&self, value: &(SimpleValue, SimpleValue), field: u8) -> i128 {
        match self {
            StockReducer::One(part) => Alone(*part).rank(&value.0, field),
            StockReducer::Two(first, second) => Both(*first, *second).rank(value, field),
        }
    }
}
