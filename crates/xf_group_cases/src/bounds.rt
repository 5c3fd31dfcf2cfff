//! As many rows as there may be, with the greatest number that a cell may have.
ghost use Rattle.std.specs.Prelude.{◌≡◌, ◌<◌, ◌≤◌, IfOk, replicate};
ghost use Rattle.xf_base.specs.declared.limits.TheConstants.Limits.{ROWS};
ghost use Rattle.xf_model.specs.Group.{fold_of};

use crate::folds::{a_schema, row_of, see_ranks};
use std::alloc::Global;
use std::marker::Brand;
use std::process::Abort;
use std::sync::ledger::{Blank, Ledger};
use std::test::Fail;
use xf_base::{Limits, OutOfMemory, Row, Schema, Steps};
use xf_reduce::{Reducer, Simple, StockReducer};

/// The value of so many rows that are all the same.
fn repeated<R: Reducer, L: Ledger>(
    rt: &impl Abort,
    alloc: Global,
    schema: &Schema,
    reducer: &R,
    row: &Row,
    times: u64,
    steps: &mut Steps<L>,
) -> Result<R::Value, OutOfMemory>
    requires { times ≤ ROWS }
    ensures { IfOk result (λ value. R.meaning_of value ≡ fold_of (R.folding reducer.now) (replicate times row.now)) }
{
    assert!(rt; reducer.fits(schema) && schema.misfit(row).is_none());
    let mut value = reducer.initial(alloc)?;
    reducer.prepare(&mut value, row)?;
    for _time in 0..times {
        reducer.add(&mut value, row, steps);
    }
    Ok(value)
}

/// The greatest number of a cell, and the sums and sums of squares of a million.
type Case = (i64, [i128; 4]);

static SUMS: [Case; 2] = [
    (
        1_000_000_000_000_000,
        [
            1_000_000_000_000_000_000_000,
            1_000_000_000_000_000_000_000_000_000_000_000_000,
            1_000_000_000_000_000_000_000,
            1_000_000,
        ],
    ),
    (
        -1_000_000_000_000_000,
        [
            -1_000_000_000_000_000_000_000,
            1_000_000_000_000_000_000_000_000_000_000_000_000,
            -1_000_000_000_000_000_000_000,
            1_000_000,
        ],
    ),
];

/// What is summed.
static REDUCER: StockReducer = StockReducer::Two(Simple::Sum(0), Simple::SumSquares(0));

/// Compares the fields of as many rows as there may be with those that a case has.
fn see_sum<L: Ledger>(
    rt: &impl Abort,
    alloc: Global,
    schema: &Schema,
    case: &Case,
    steps: &mut Steps<L>,
) -> Result<(), OutOfMemory> {
    let row = row_of(alloc, case.0, 0)?;
    let value = repeated(rt, alloc, schema, &REDUCER, &row, Limits::ROWS, steps)?;
    see_ranks(rt, &REDUCER, &value, case.1.as_slice());
    Ok(())
}

fn see_sums<L: Ledger>(rt: &impl Abort, alloc: Global, blank: Blank) -> Result<(), Fail>
    requires name { blank.name ≡ L.name }
    requires parts { blank.parts ≡ L.parts }
    requires some { 0 < blank.parts }
{
    let mut steps = Steps::<L>::new(blank);
    let schema = a_schema(alloc)?;
    for case in &SUMS {
        see_sum(rt, alloc, &schema, case, &mut steps)?;
    }
    Ok(())
}

#[test]
fn greatest_sums(rt: HostRuntime) -> Result<(), Fail> {
    see_sums::<Brand>(&rt, rt.alloc(), Blank::new(1))
}
