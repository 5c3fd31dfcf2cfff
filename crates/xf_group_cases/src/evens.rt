//! The reducer of one's own, over worked rows.
ghost use Rattle.std.specs.Prelude.{◌≡◌, ◌<◌};

use crate::folds::{a_schema, see_fields};
use crate::own::Evens;
use std::alloc::Global;
use std::marker::Brand;
use std::process::Abort;
use std::sync::ledger::{Blank, Ledger};
use std::test::Fail;
use xf_base::Steps;
use xf_reduce::Reducer;

/// The numbers of rows, and how many of them are even.
static COUNTS: [(&[(i64, i64)], i128); 5] = [
    (&[], 0),
    (&[(7, 0), (-5, 2)], 0),
    (&[(7, 0), (-6, 0), (0, 1)], 2),
    (&[(2, 1), (3, 2)], 1),
    (
        &[(1_000_000_000_000_000, 0), (-1_000_000_000_000_000, 0)],
        2,
    ),
];

fn see_evens<L: Ledger>(rt: &impl Abort, alloc: Global, blank: Blank) -> Result<(), Fail>
    requires name { blank.name ≡ L.name }
    requires parts { blank.parts ≡ L.parts }
    requires some { 0 < blank.parts }
{
    let mut steps = Steps::<L>::new(blank);
    let schema = a_schema(alloc)?;
    for (numbers, count) in &COUNTS {
        let copy = Evens.copy(alloc)?;
        see_fields(rt, alloc, &schema, &copy, numbers, &[*count], &mut steps)?;
    }
    Ok(())
}

#[test]
fn own_reducer(rt: HostRuntime) -> Result<(), Fail> {
    see_evens::<Brand>(&rt, rt.alloc(), Blank::new(1))
}
