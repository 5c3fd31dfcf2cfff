//! A crossfilter over each accessor of the stock: what groups count, which entry has most, and which records have the least
//! and the greatest keys.
ghost use Rattle.std.specs.Prelude.{◌≡◌, ◌<◌};

use crate::engine::{
    RECORDS, StockCross, add_counted, add_rows, empty_cross, order_by, see_numbers, see_top,
};
use crate::see::see;
use crate::told::{TEXT, TEXT_AND_CENTS, Told, WHOLE};
use std::alloc::Global;
use std::marker::Brand;
use std::process::Abort;
use std::sync::ledger::{Blank, Ledger};
use std::test::Fail;
use xf_access::{StockAccessor, StockRounding};
use xf_base::Steps;
use xf_engine::DimensionId;
use xf_group::GroupOrder;

/// A dimension, how its group rounds, the group's entries, the one of most records, the records from the least key on, and
/// of those from the greatest key on the second and the third.
type Case = (
    StockAccessor,
    StockRounding,
    &'static [(Told, i128)],
    &'static [(Told, i128)],
    &'static [usize],
    &'static [usize],
);

static DIMENSIONS: [Case; 6] = [
    (
        StockAccessor::Column(1, WHOLE),
        StockRounding::Floor(10),
        &[(Told::Num(-10), 1), (Told::Num(0), 3)],
        &[(Told::Num(0), 3)],
        &[0, 1, 2, 3],
        &[2, 1],
    ),
    (
        StockAccessor::Column(0, TEXT),
        StockRounding::FirstLetters(1),
        &[(Told::Text("a"), 2), (Told::Text("b"), 2)],
        &[(Told::Text("a"), 2)],
        &[0, 2, 1, 3],
        &[1, 2],
    ),
    (
        StockAccessor::PairOf(0, 2, TEXT_AND_CENTS),
        StockRounding::Same,
        &[
            (Told::Pair("ab", 100), 1),
            (Told::Pair("ac", 100), 1),
            (Told::Pair("b", 200), 1),
            (Told::Pair("b", 300), 1),
        ],
        &[(Told::Pair("ab", 100), 1)],
        &[0, 2, 1, 3],
        &[1, 2],
    ),
    (
        StockAccessor::Weekday(3),
        StockRounding::Same,
        &[(Told::Num(0), 2), (Told::Num(3), 1), (Told::Num(4), 1)],
        &[(Told::Num(0), 2)],
        &[2, 3, 1, 0],
        &[1, 3],
    ),
    (
        StockAccessor::Month(3),
        StockRounding::Same,
        &[(Told::Num(1), 2), (Told::Num(2), 1), (Told::Num(12), 1)],
        &[(Told::Num(1), 2)],
        &[0, 2, 3, 1],
        &[3, 2],
    ),
    (
        StockAccessor::Tags(4),
        StockRounding::FirstLetters(1),
        &[
            (Told::Text("a"), 2),
            (Told::Text("b"), 2),
            (Told::Text("c"), 1),
        ],
        &[(Told::Text("a"), 2)],
        &[0, 2, 2, 0, 2, 3],
        &[2, 0],
    ),
];

/// Sees which records have the least and the greatest keys.
fn see_ends<L: Ledger>(
    rt: &impl Abort,
    cross: &StockCross,
    dimension: DimensionId,
    case: &Case,
    steps: &mut Steps<L>,
) -> Result<(), Fail> {
    let least = cross.bottom(dimension, 9, 0, steps)?;
    see(rt, "the least keys", least.as_slice() == case.4);
    let greatest = cross.top(dimension, 2, 1, steps)?;
    see(rt, "the greatest keys", greatest.as_slice() == case.5);
    Ok(())
}

/// Sees what a case's dimension gives.
fn see_dimension<L: Ledger>(
    rt: &impl Abort,
    alloc: Global,
    cross: &mut StockCross,
    case: &Case,
    steps: &mut Steps<L>,
) -> Result<(), Fail> {
    let (dimension, group) = add_counted(rt, cross, case.0, case.1, steps)?;
    see(
        rt,
        "its dimension",
        cross.group_dimension(group) == Ok(dimension),
    );
    see_numbers(rt, alloc, cross, group, case.2, steps)?;
    order_by(rt, cross, group, GroupOrder::By(0))?;
    see_top(rt, alloc, cross, group, case.3, steps)?;
    see_ends(rt, cross, dimension, case, steps)
}

fn see_each<L: Ledger>(
    rt: &impl Abort,
    alloc: Global,
    cross: &mut StockCross,
    steps: &mut Steps<L>,
) -> Result<(), Fail> {
    add_rows(alloc, cross, &RECORDS, steps)?;
    see(rt, "four records", cross.is_sound() && cross.size() == 4);
    for case in &DIMENSIONS {
        see_dimension(rt, alloc, cross, case, steps)?;
    }
    assert!(rt; 0 < cross.size());
    see(rt, "five cells", cross.row(0, steps).len() == 5);
    see(rt, "no filter", cross.passing_count(steps) == 4);
    Ok(())
}

fn see_dimensions<L: Ledger>(rt: &impl Abort, alloc: Global, blank: Blank) -> Result<(), Fail>
    requires name { blank.name ≡ L.name }
    requires parts { blank.parts ≡ L.parts }
    requires some { 0 < blank.parts }
{
    let mut steps = Steps::<L>::new(blank);
    let mut cross = empty_cross(alloc)?;
    see_each(rt, alloc, &mut cross, &mut steps)
}

/// A record of several tags that round to one is counted once, and of equal keys the later record is the greater.
#[test]
fn each_accessor(rt: HostRuntime) -> Result<(), Fail> {
    see_dimensions::<Brand>(&rt, rt.alloc(), Blank::new(1))
}
