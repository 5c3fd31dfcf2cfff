//! Records of several tags that are removed, and which are left.
ghost use Rattle.std.specs.Prelude.{◌≡◌, ◌<◌};

use crate::engine::{StockCross, TAGGED, add_counted, add_rows, empty_cross, see_numbers};
use crate::named::filter_of;
use crate::see::see;
use crate::told::{TEXT, Told};
use std::alloc::Global;
use std::marker::Brand;
use std::process::Abort;
use std::sync::ledger::{Blank, Ledger};
use std::test::Fail;
use xf_access::{StockAccessor, StockRounding};
use xf_base::Steps;
use xf_engine::{DimensionId, GroupId};

/// A filter of tags, how many records are removed by it, and the tags that are left with their numbers.
type Case = (&'static str, u64, &'static [(Told, i128)]);

static TAGS: [Case; 5] = [
    ("all", 3, &[]),
    (
        "exact x",
        0,
        &[
            (Told::Text("a"), 1),
            (Told::Text("b"), 2),
            (Told::Text("c"), 1),
        ],
    ),
    ("exact b", 2, &[]),
    (
        "range a b",
        1,
        &[(Told::Text("b"), 1), (Told::Text("c"), 1)],
    ),
    (
        "func prefix c",
        1,
        &[(Told::Text("a"), 1), (Told::Text("b"), 1)],
    ),
];

/// Tagged records with the dimension 0 of their tags, and its group 0.
fn tagged<L: Ledger>(
    rt: &impl Abort,
    alloc: Global,
    steps: &mut Steps<L>,
) -> Result<StockCross, Fail> {
    let mut cross = empty_cross(alloc)?;
    add_rows(alloc, &mut cross, &TAGGED, steps)?;
    let accessor = StockAccessor::Tags(4);
    add_counted(rt, &mut cross, accessor, StockRounding::Same, steps)?;
    Ok(cross)
}

/// Removes what the filter of a case lets pass, and sees what is left.
fn see_removed<L: Ledger>(
    rt: &impl Abort,
    alloc: Global,
    cross: &mut StockCross,
    case: &Case,
    steps: &mut Steps<L>,
) -> Result<(), Fail> {
    let filter = filter_of(alloc, &TEXT, case.0)?;
    let removed = cross.remove_where(DimensionId(0), &filter, steps);
    see(rt, case.0, removed == Ok(case.1));
    see_numbers(rt, alloc, cross, GroupId(0), case.2, steps)
}

fn see_tags<L: Ledger>(rt: &impl Abort, alloc: Global, blank: Blank) -> Result<(), Fail>
    requires name { blank.name ≡ L.name }
    requires parts { blank.parts ≡ L.parts }
    requires some { 0 < blank.parts }
{
    let mut steps = Steps::<L>::new(blank);
    for case in &TAGS {
        let mut cross = tagged(rt, alloc, &mut steps)?;
        see_removed(rt, alloc, &mut cross, case, &mut steps)?;
    }
    Ok(())
}

/// A record without tags is removed where every record is, and else stays.
#[test]
fn each_tag(rt: HostRuntime) -> Result<(), Fail> {
    see_tags::<Brand>(&rt, rt.alloc(), Blank::new(1))
}
