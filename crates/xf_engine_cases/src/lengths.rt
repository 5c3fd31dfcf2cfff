//! A crossfilter over an accessor, a rounding and a reducer of one's own.
ghost use Rattle.std.specs.Prelude.{◌≡◌, ◌<◌};

use crate::engine::{RECORDS, add_group, add_rows, see_numbers};
use crate::named::{a_schema, filter_of};
use crate::own::{Evens, Halves, TextLength};
use crate::see::see;
use crate::told::{Told, WHOLE};
use std::alloc::Global;
use std::marker::Brand;
use std::process::Abort;
use std::sync::ledger::{Blank, Ledger};
use std::test::Fail;
use xf_access::Accessor;
use xf_base::{Limits, Steps};
use xf_engine::{Cross, DimensionId, GroupId, WholeId};
use xf_filter::StockPredicate;
use xf_reduce::Reducer;

type OwnCross = Cross<TextLength, Halves, StockPredicate, Evens>;

const LENGTH: DimensionId = DimensionId(0);

/// Adds the lengths of texts as the dimension 0, a group of their halves, and a whole.
fn add_lengths<L: Ledger>(
    rt: &impl Abort,
    cross: &mut OwnCross,
    steps: &mut Steps<L>,
) -> Result<(GroupId, WholeId), Fail> {
    let length = TextLength { column: 0 };
    assert!(rt; length.fits(cross.schema()));
    let dimension = cross.add_dimension(length, steps)?;
    let group = add_group(rt, cross, dimension, Halves, Evens, steps)?;
    assert!(rt; Evens.fits(cross.schema()));
    let whole = cross.add_whole(Evens, steps)?;
    Ok((group, whole))
}

/// Sets a range of lengths, and sees the record that it leaves.
fn see_range<L: Ledger>(
    rt: &impl Abort,
    alloc: Global,
    cross: &mut OwnCross,
    steps: &mut Steps<L>,
) -> Result<(), Fail> {
    let range = filter_of(alloc, &WHOLE, "range 2 3")?;
    see(
        rt,
        "two moved",
        cross.set_filter(LENGTH, range, steps) == Ok(2),
    );
    let found = cross.bottom(LENGTH, 1, 1, steps)?;
    see(rt, "the second", found.as_slice() == [2].as_slice());
    Ok(())
}

/// The halves 0 and 1, and how many numbers of each are even.
static HALVES: [(Told, i128); 2] = [(Told::Num(0), 1), (Told::Num(1), 0)];

fn see_own<L: Ledger>(
    rt: &impl Abort,
    alloc: Global,
    cross: &mut OwnCross,
    steps: &mut Steps<L>,
) -> Result<(), Fail> {
    add_rows(alloc, cross, &RECORDS, steps)?;
    let (group, whole) = add_lengths(rt, cross, steps)?;
    see(rt, "one even number", *cross.whole(whole)? == 1);
    see_range(rt, alloc, cross, steps)?;
    see(rt, "no even number", *cross.whole(whole)? == 0);
    see_numbers(rt, alloc, cross, group, &HALVES, steps)
}

/// The lengths 2, 1, 2 and 1 of rows with the numbers -5, 0, 7 and 7, through a crossfilter: the halves of the lengths, each
/// with how many of its numbers are even.
fn see_lengths<L: Ledger>(rt: &impl Abort, alloc: Global, blank: Blank) -> Result<(), Fail>
    requires name { blank.name ≡ L.name }
    requires parts { blank.parts ≡ L.parts }
    requires some { 0 < blank.parts }
{
    let mut steps = Steps::<L>::new(blank);
    let mut cross = Cross::new(alloc, a_schema(alloc)?, Limits::standard());
    see_own(rt, alloc, &mut cross, &mut steps)
}

#[test]
fn concrete(rt: HostRuntime) -> Result<(), Fail> {
    see_lengths::<Brand>(&rt, rt.alloc(), Blank::new(1))
}
