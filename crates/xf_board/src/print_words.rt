//! Accessors, roundings and reducers as JSON: arrays of words.
ghost use Rattle.std.specs.Prelude.{◌≡◌, [], ◌∷◌, IfOk};
ghost use Rattle.serde_json.specs.View.{view};
ghost use Rattle.xf_board.specs.Print.{accessor_value, name_at, part_value, reducer_value, rounding_value, words_of};

use serde_json::{Value, json};
use std::alloc::Global;
use xf_access::{StockAccessor, StockRounding};
use xf_base::{OutOfMemory, Schema};
use xf_reduce::{Simple, StockReducer};

/// An accessor, by the names of its columns.
pub fn accessor_value(
    alloc: Global,
    schema: &Schema,
    accessor: StockAccessor,
) -> Result<Value, OutOfMemory>
    ensures { IfOk result (λ value. view value ≡ accessor_value schema.now accessor) }
{
    match accessor {
        StockAccessor::Column(place, _) => over_column(alloc, "column", schema, place),
        StockAccessor::PairOf(first, second, _) => {
            let first = name_at(schema, first);
            let second = name_at(schema, second);
            Ok(json!(in alloc; ["pair", first, second])?)
        }
        StockAccessor::Tags(place) => over_column(alloc, "tags", schema, place),
        StockAccessor::Weekday(place) => over_column(alloc, "weekday", schema, place),
        StockAccessor::Month(place) => over_column(alloc, "month", schema, place),
    }
}

/// A rounding.
pub fn rounding_value(alloc: Global, rounding: StockRounding) -> Result<Value, OutOfMemory>
    ensures { IfOk result (λ value. view value ≡ rounding_value rounding) }
{
    Ok(match rounding {
        StockRounding::Same => json!(in alloc; ["same"])?,
        StockRounding::Floor(width) => json!(in alloc; ["floor", width])?,
        StockRounding::MonthOf => json!(in alloc; ["month"])?,
        StockRounding::YearOf => json!(in alloc; ["year"])?,
        StockRounding::FirstLetters(count) => json!(in alloc; ["letters", count])?,
    })
}

/// A reducer, by the names of its columns.
pub fn reducer_value(
    alloc: Global,
    schema: &Schema,
    reducer: StockReducer,
) -> Result<Value, OutOfMemory>
    ensures { IfOk result (λ value. view value ≡ reducer_value schema.now reducer) }
{
    match reducer {
        StockReducer::One(part) => part_value(alloc, schema, part),
        StockReducer::Two(first, second) => {
            let first = part_value(alloc, schema, first)?;
            let second = part_value(alloc, schema, second)?;
            Ok(json!(in alloc; ["both", first, second])?)
        }
    }
}

/// A part of a reducer.
fn part_value(alloc: Global, schema: &Schema, part: Simple) -> Result<Value, OutOfMemory>
    ensures { IfOk result (λ value. view value ≡ part_value schema.now part) }
{
    match part {
        Simple::Count => Ok(json!(in alloc; ["count"])?),
        Simple::Sum(place) => over_column(alloc, "sum", schema, place),
        Simple::SumCount(place) => over_column(alloc, "sumcount", schema, place),
        Simple::SumSquares(place) => over_column(alloc, "sumsquares", schema, place),
        Simple::Spread(place) => over_column(alloc, "spread", schema, place),
    }
}

/// A word and the name of the column at a place.
fn over_column(
    alloc: Global,
    word: &str,
    schema: &Schema,
    place: usize,
) -> Result<Value, OutOfMemory>
    ensures { IfOk result (λ value. view value ≡ words_of (word.now ∷ name_at schema.now place ∷ [])) }
{
    let name = name_at(schema, place);
    Ok(json!(in alloc; [word, name])?)
}

/// The name of the column at a place.
fn name_at(schema: &Schema, place: usize) -> &str
    ensures { result.now ≡ name_at schema.now place }
{
    match schema.as_slice().get(place) {
        Some(column) => column.name.as_str(),
        None => "",
    }
}
