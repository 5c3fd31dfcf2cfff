//! What groups and wholes keep of flights, and what is told of them by their ids.
ghost use Rattle.std.specs.Prelude.{◌≡◌, ◌<◌};

use crate::engine::{COUNT, FLIGHTS, StockCross, add_rows, flights};
use crate::named::filter_of;
use crate::see::see;
use crate::told::{Told, WHOLE, key_of};
use std::alloc::Global;
use std::marker::Brand;
use std::process::Abort;
use std::sync::ledger::{Blank, Ledger};
use std::test::Fail;
use xf_base::{Key, Limits, Steps};
use xf_engine::{DimensionId, DisposeRefusal, GroupId, NoGroup, NoWhole, WholeId};
use xf_reduce::{Reducer, Simple, StockReducer};

const DELAY: DimensionId = DimensionId(0);

const CARRIER: DimensionId = DimensionId(1);

/// How many records there are, and their cents.
const COUNT_AND_CENTS: StockReducer = StockReducer::Two(Simple::Count, Simple::Sum(2));

/// Adds a whole of the count and the cents.
fn add_whole<L: Ledger>(
    rt: &impl Abort,
    cross: &mut StockCross,
    steps: &mut Steps<L>,
) -> Result<WholeId, Fail> {
    assert!(rt; COUNT_AND_CENTS.fits(cross.schema()));
    Ok(cross.add_whole(COUNT_AND_CENTS, steps)?)
}

/// Compares the count and the cents of a whole with those that a table has.
fn see_whole(
    rt: &impl Abort,
    cross: &StockCross,
    id: WholeId,
    want: (i128, i128),
) -> Result<(), Fail> {
    let value = cross.whole(id)?;
    see(rt, "count", COUNT_AND_CENTS.rank(value, 0) == want.0);
    see(rt, "cents", COUNT_AND_CENTS.rank(value, 1) == want.1);
    Ok(())
}

const CARRIERS: GroupId = GroupId(1);

/// The last entry of the carriers, by its place and by its key.
fn see_entry<L: Ledger>(
    rt: &impl Abort,
    cross: &StockCross,
    key: &Key,
    steps: &mut Steps<L>,
) -> Result<(), Fail> {
    assert!(rt; 2 < cross.group_size(CARRIERS)?);
    let entry = cross.group_at(CARRIERS, 2, steps)?;
    see(
        rt,
        "a key",
        *entry.key == *key && COUNT.rank(entry.value, 0) == 1,
    );
    let value = cross.group_value(CARRIERS, key, steps)?;
    see(
        rt,
        "a value",
        value.is_some_and(|value| COUNT.rank(value, 0) == 1),
    );
    Ok(())
}

/// What is told of a group and of a whole by their ids.
fn see_things<L: Ledger>(
    rt: &impl Abort,
    alloc: Global,
    cross: &StockCross,
    whole: WholeId,
    steps: &mut Steps<L>,
) -> Result<(), Fail> {
    see(
        rt,
        "a dimension",
        cross.group_dimension(CARRIERS) == Ok(CARRIER),
    );
    see(rt, "a reducer", *cross.reducer(CARRIERS)? == COUNT);
    see(
        rt,
        "its reducer",
        *cross.whole_reducer(whole)? == COUNT_AND_CENTS,
    );
    see(rt, "limits", cross.limits().rows == Limits::standard().rows);
    see(rt, "three carriers", cross.group_size(CARRIERS) == Ok(3));
    let key = key_of(alloc, &Told::Text("UA"))?;
    see_entry(rt, cross, &key, steps)
}

/// Removes the flights of a delay, and sees the whole, which their filter hides until their dimension goes.
fn see_removal<L: Ledger>(
    rt: &impl Abort,
    alloc: Global,
    cross: &mut StockCross,
    whole: WholeId,
    steps: &mut Steps<L>,
) -> Result<(), Fail> {
    let filter = filter_of(alloc, &WHOLE, "exact 7")?;
    cross.set_filter(DELAY, filter, steps)?;
    see(rt, "two removed", cross.remove_passing(steps) == Ok(2));
    see_whole(rt, cross, whole, (0, 0))?;
    see(
        rt,
        "two come back",
        cross.dispose_dimension(DELAY, steps) == Ok(2),
    );
    see_whole(rt, cross, whole, (2, 300))?;
    add_rows(alloc, cross, &FLIGHTS, steps)?;
    see_whole(rt, cross, whole, (6, 1000))
}

/// What is gone is told by its id, and goes once.
fn see_disposals<L: Ledger>(
    rt: &impl Abort,
    cross: &mut StockCross,
    whole: WholeId,
    steps: &mut Steps<L>,
) {
    let gone = Err(DisposeRefusal::NoDimension { id: 0 });
    see(
        rt,
        "a dimension",
        cross.dispose_dimension(DELAY, steps) == gone,
    );
    see(
        rt,
        "its group",
        cross.group_size(GroupId(0)) == Err(NoGroup { id: 0 }),
    );
    see(rt, "a group", cross.dispose_group(CARRIERS) == Ok(()));
    see(
        rt,
        "it again",
        cross.dispose_group(CARRIERS) == Err(NoGroup { id: 1 }),
    );
    see(rt, "a whole", cross.dispose_whole(whole) == Ok(()));
    see(
        rt,
        "it again",
        cross.dispose_whole(whole) == Err(NoWhole { id: 0 }),
    );
}

/// A whole from when it is added until it is gone.
fn see_whole_life<L: Ledger>(
    rt: &impl Abort,
    alloc: Global,
    cross: &mut StockCross,
    steps: &mut Steps<L>,
) -> Result<(), Fail> {
    let whole = add_whole(rt, cross, steps)?;
    see_things(rt, alloc, cross, whole, steps)?;
    see_removal(rt, alloc, cross, whole, steps)?;
    see_disposals(rt, cross, whole, steps);
    Ok(())
}

fn see_changes<L: Ledger>(rt: &impl Abort, alloc: Global, blank: Blank) -> Result<(), Fail>
    requires name { blank.name ≡ L.name }
    requires parts { blank.parts ≡ L.parts }
    requires some { 0 < blank.parts }
{
    let mut steps = Steps::<L>::new(blank);
    let mut cross = flights(rt, alloc, &mut steps)?;
    see_whole_life(rt, alloc, &mut cross, &mut steps)
}

/// Records that go take their part of a whole with them, and a dimension that goes its filter and its groups.
#[test]
fn each_change(rt: HostRuntime) -> Result<(), Fail> {
    see_changes::<Brand>(&rt, rt.alloc(), Blank::new(1))
}
