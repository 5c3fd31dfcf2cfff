//! The fields of the stock of reducers, and of a part alone and two parts.
ghost use Rattle.std.specs.Prelude.{◌≡◌, ◌<◌};

use crate::folds::{a_schema, see_fields};
use crate::see::see;
use std::alloc::Global;
use std::marker::Brand;
use std::process::Abort;
use std::sync::ledger::{Blank, Ledger};
use std::test::Fail;
use xf_base::{OutOfMemory, Schema, Steps};
use xf_reduce::{Alone, Both, Reducer, Simple, Spread, StockReducer, SumCount, SumSquares};

/// Whole numbers, and cents beside them.
const ALL: &[(i64, i64)] = &[(7, 150), (-5, -25), (0, 0), (7, 1)];

const FIRST: &[(i64, i64)] = &[(7, 150)];

const TWO: &[(i64, i64)] = &[(-5, 0), (0, 0)];

/// What two parts keep of all of them: of the cents sum, count and mean, and the spread of the whole numbers.
const BOTH: &[i128] = &[126, 4, 31, 3, -5, 7, 0];

/// A reducer, the numbers of rows, the fields (of the spread, how many numbers differ, the least, the greatest and the
/// median), and their decimals.
type Case = (
    StockReducer,
    &'static [(i64, i64)],
    &'static [i128],
    &'static [u8],
);

static FIELDS: [Case; 16] = [
    (StockReducer::One(Simple::Count), ALL, &[4], &[0]),
    (StockReducer::One(Simple::Sum(0)), ALL, &[9], &[0]),
    (StockReducer::One(Simple::Sum(1)), ALL, &[126], &[2]),
    (
        StockReducer::One(Simple::SumCount(0)),
        ALL,
        &[9, 4, 2],
        &[0, 0, 0],
    ),
    (
        StockReducer::One(Simple::SumCount(1)),
        ALL,
        &[126, 4, 31],
        &[2, 0, 2],
    ),
    (
        StockReducer::One(Simple::SumSquares(0)),
        ALL,
        &[123, 9, 4],
        &[0, 0, 0],
    ),
    (
        StockReducer::One(Simple::Spread(0)),
        ALL,
        &[3, -5, 7, 0],
        &[0, 0, 0, 0],
    ),
    (
        StockReducer::One(Simple::Spread(1)),
        ALL,
        &[4, -25, 150, 0],
        &[0, 2, 2, 2],
    ),
    (
        StockReducer::Two(Simple::SumCount(0), Simple::Spread(0)),
        ALL,
        &[9, 4, 2, 3, -5, 7, 0],
        &[0, 0, 0, 0, 0, 0, 0],
    ),
    (
        StockReducer::Two(Simple::SumSquares(1), Simple::Count),
        FIRST,
        &[22500, 150, 1, 1],
        &[4, 2, 0, 0],
    ),
    (
        StockReducer::One(Simple::SumCount(0)),
        TWO,
        &[-5, 2, -3],
        &[0, 0, 0],
    ),
    (
        StockReducer::One(Simple::Spread(0)),
        TWO,
        &[2, -5, 0, -5],
        &[0, 0, 0, 0],
    ),
    (
        StockReducer::Two(Simple::SumCount(0), Simple::Spread(0)),
        &[],
        &[0, 0, 0, 0, 0, 0, 0],
        &[0, 0, 0, 0, 0, 0, 0],
    ),
    (
        StockReducer::Two(Simple::Count, Simple::SumSquares(0)),
        &[],
        &[0, 0, 0, 0],
        &[0, 0, 0, 0],
    ),
    (
        StockReducer::Two(Simple::Sum(1), Simple::SumSquares(1)),
        FIRST,
        &[150, 22500, 150, 1],
        &[2, 4, 2, 0],
    ),
    (
        StockReducer::Two(Simple::SumCount(1), Simple::Spread(1)),
        FIRST,
        &[150, 1, 150, 1, 150, 150, 150],
        &[2, 0, 2, 0, 2, 2, 2],
    ),
];

/// Compares the decimals of the fields of a reducer with those that a table has.
fn see_decimals(rt: &impl Abort, schema: &Schema, reducer: &StockReducer, want: &[u8]) {
    assert!(rt; reducer.fits(schema));
    for field in 0..reducer.fields() {
        let decimals = reducer.decimals(schema, field);
        see(
            rt,
            "decimals",
            want.get(usize::from(field)) == Some(&decimals),
        );
    }
}

fn see_case<L: Ledger>(
    rt: &impl Abort,
    alloc: Global,
    schema: &Schema,
    case: &Case,
    steps: &mut Steps<L>,
) -> Result<(), OutOfMemory> {
    let copy = case.0.copy(alloc)?;
    see(rt, "a copy", copy == case.0);
    see_decimals(rt, schema, &copy, case.3);
    see_fields(rt, alloc, schema, &copy, case.1, case.2, steps)
}

/// A part alone, and two parts.
fn see_parts<L: Ledger>(
    rt: &impl Abort,
    alloc: Global,
    schema: &Schema,
    steps: &mut Steps<L>,
) -> Result<(), OutOfMemory> {
    let alone = Alone(SumSquares(0)).copy(alloc)?;
    see_fields(rt, alloc, schema, &alone, ALL, &[123, 9, 4], steps)?;
    let both = Both(SumCount(1), Spread(0)).copy(alloc)?;
    see_fields(rt, alloc, schema, &both, ALL, BOTH, steps)
}

fn see_stock<L: Ledger>(rt: &impl Abort, alloc: Global, blank: Blank) -> Result<(), Fail>
    requires name { blank.name ≡ L.name }
    requires parts { blank.parts ≡ L.parts }
    requires some { 0 < blank.parts }
{
    let mut steps = Steps::<L>::new(blank);
    let schema = a_schema(alloc)?;
    for case in &FIELDS {
        see_case(rt, alloc, &schema, case, &mut steps)?;
    }
    Ok(see_parts(rt, alloc, &schema, &mut steps)?)
}

#[test]
fn stock(rt: HostRuntime) -> Result<(), Fail> {
    see_stock::<Brand>(&rt, rt.alloc(), Blank::new(1))
}
