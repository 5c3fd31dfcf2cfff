//! Filters of any predicate: one of a test's own, dimensions that are ignored, and all filters cleared.
ghost use Rattle.std.specs.Prelude.{◌≡◌, ◌<◌};

use crate::engine::{CrossBy, FLIGHTS, StockCross, add_counted, add_rows, empty_cross, flights};
use crate::named::filter_of;
use crate::own::Even;
use crate::see::see;
use crate::told::{TEXT, WHOLE};
use std::alloc::Global;
use std::marker::Brand;
use std::process::Abort;
use std::sync::ledger::{Blank, Ledger};
use std::test::Fail;
use xf_access::{StockAccessor, StockRounding};
use xf_base::{KeyForm, Steps};
use xf_engine::{DimensionId, ListRefusal, NoDimension};
use xf_filter::{Filter, Predicate};

const DELAY: DimensionId = DimensionId(0);

const CARRIER: DimensionId = DimensionId(1);

/// Sets a filter, and sees how many records it moves and how many pass it.
fn see_moved<P: Predicate, L: Ledger>(
    rt: &impl Abort,
    cross: &mut CrossBy<P>,
    filter: Filter<P>,
    moved: u64,
    passing: u64,
    steps: &mut Steps<L>,
) {
    let is_moved = cross.set_filter(DELAY, filter, steps) == Ok(moved);
    see(
        rt,
        "moved",
        is_moved && cross.passing_count(steps) == passing,
    );
}

/// Removes the records that a filter lets pass, and sees how many they are.
fn see_removed<P: Predicate, L: Ledger>(
    rt: &impl Abort,
    cross: &mut CrossBy<P>,
    filter: &Filter<P>,
    passing: u64,
    steps: &mut Steps<L>,
) {
    let is_removed = cross.remove_where(DELAY, filter, steps) == Ok(passing);
    see(rt, "removed", is_removed && cross.passing_count(steps) == 0);
}

/// Flights with the dimension 0 of their delays.
fn delays<P: Predicate, L: Ledger>(
    rt: &impl Abort,
    alloc: Global,
    steps: &mut Steps<L>,
) -> Result<CrossBy<P>, Fail> {
    let mut cross = empty_cross(alloc)?;
    let accessor = StockAccessor::Column(1, WHOLE);
    add_counted(rt, &mut cross, accessor, StockRounding::Same, steps)?;
    add_rows(alloc, &mut cross, &FLIGHTS, steps)?;
    Ok(cross)
}

/// Sets a copy of a filter and removes what passes it.
fn see_filter<P: Predicate, L: Ledger>(
    rt: &impl Abort,
    alloc: Global,
    cross: &mut CrossBy<P>,
    filter: &Filter<P>,
    moved: u64,
    passing: u64,
    steps: &mut Steps<L>,
) -> Result<(), Fail> {
    let copy = filter.copy(alloc)?;
    see_moved(rt, cross, copy, moved, passing, steps);
    see_removed(rt, cross, filter, passing, steps);
    Ok(())
}

/// Sets a predicate on the delays of flights and removes what passes it.
fn see_predicate<P: Predicate, L: Ledger>(
    rt: &impl Abort,
    alloc: Global,
    predicate: P,
    moved: u64,
    passing: u64,
    blank: Blank,
) -> Result<(), Fail>
    requires name { blank.name ≡ L.name }
    requires parts { blank.parts ≡ L.parts }
    requires some { 0 < blank.parts }
{
    let mut steps = Steps::<L>::new(blank);
    let filter = Filter::Func(predicate);
    let mut cross = delays(rt, alloc, &mut steps)?;
    see_filter(rt, alloc, &mut cross, &filter, moved, passing, &mut steps)
}

#[test]
fn own_predicate(rt: HostRuntime) -> Result<(), Fail> {
    see_predicate::<Even, Brand>(&rt, rt.alloc(), Even, 3, 1, Blank::new(1))
}

/// Dimensions that are ignored, and the flights that pass the others.
static IGNORED: [(&[DimensionId], Result<&[usize], u32>); 6] = [
    (&[], Ok(&[2])),
    (&[DELAY], Ok(&[0, 2])),
    (&[CARRIER], Ok(&[1, 2, 3])),
    (&[CARRIER, DELAY], Ok(&[0, 1, 2, 3])),
    (&[DELAY, DELAY], Ok(&[0, 2])),
    (&[DELAY, DimensionId(9), DimensionId(7)], Err(9)),
];

/// Whether these places, or this id that is not live, were told.
fn is_told(found: &Result<Vec<usize>, ListRefusal>, told: &Result<&[usize], u32>) -> bool {
    match (found, told) {
        (Ok(places), Ok(own)) => places.as_slice() == *own,
        (Err(ListRefusal::NoDimension { id }), Err(own)) => id == own,
        _ => false,
    }
}

/// Sets the filter that the words of a line name.
fn set_filter<L: Ledger>(
    alloc: Global,
    cross: &mut StockCross,
    dimension: DimensionId,
    form: &KeyForm,
    line: &str,
    steps: &mut Steps<L>,
) -> Result<u64, Fail> {
    let filter = filter_of(alloc, form, line)?;
    Ok(cross.set_filter(dimension, filter, steps)?)
}

/// Clears both filters, and sees that they are none.
fn see_cleared<L: Ledger>(rt: &impl Abort, cross: &mut StockCross, steps: &mut Steps<L>) {
    let is_cleared = cross.clear_all(steps) == Ok(3);
    see(rt, "cleared", is_cleared && cross.passing_count(steps) == 4);
    let is_cleared = cross.clear_all(steps) == Ok(0);
    see(
        rt,
        "cleared again",
        is_cleared && cross.events().filtered == 4,
    );
    see(
        rt,
        "no filter",
        matches!(cross.filter(DELAY), Ok(Filter::All)),
    );
    let gone = cross.filter(DimensionId(2));
    see(
        rt,
        "no dimension",
        matches!(gone, Err(NoDimension { id: 2 })),
    );
}

fn see_lists<L: Ledger>(
    rt: &impl Abort,
    alloc: Global,
    cross: &mut StockCross,
    steps: &mut Steps<L>,
) -> Result<(), Fail> {
    set_filter(alloc, cross, DELAY, &WHOLE, "range 0 8", steps)?;
    set_filter(alloc, cross, CARRIER, &TEXT, "exact AA", steps)?;
    for (ignored, told) in &IGNORED {
        let found = cross.all_filtered(ignored, steps);
        see(rt, "all but those ignored", is_told(&found, told));
    }
    Ok(())
}

fn see_ignored<L: Ledger>(rt: &impl Abort, alloc: Global, blank: Blank) -> Result<(), Fail>
    requires name { blank.name ≡ L.name }
    requires parts { blank.parts ≡ L.parts }
    requires some { 0 < blank.parts }
{
    let mut steps = Steps::<L>::new(blank);
    let mut cross = flights(rt, alloc, &mut steps)?;
    see_lists(rt, alloc, &mut cross, &mut steps)?;
    see_cleared(rt, &mut cross, &mut steps);
    Ok(())
}

#[test]
fn ignored_dimensions(rt: HostRuntime) -> Result<(), Fail> {
    see_ignored::<Brand>(&rt, rt.alloc(), Blank::new(1))
}
