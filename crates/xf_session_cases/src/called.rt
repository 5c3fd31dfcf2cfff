//! The worked lines, run.
ghost use Rattle.std.specs.Prelude.{◌≡◌, ◌<◌};

use crate::case::{BOARD, depot_of, start};
use crate::worked::{cleared, comment, events, size, unknown_verb, wanting_count};
use std::alloc::Global;
use std::marker::Brand;
use std::process::Abort;
use std::sync::ledger::{Blank, Ledger};
use std::test::Fail;
use xf_base::Steps;
use xf_outside::MemoryDepot;
use xf_reply::put_step;
use xf_session::Session;

/// What is written for the worked lines in turn.
const WRITTEN: &str = "step 1 refused 3 unknown verb
step 2 refused 4 bad word 3
step 3 ok
  3
step 4 ok
  added 1 removed 0 filtered 0
step 5 refused 6 no dimension d
";

/// Appends what is written for them.
fn put_worked<L: Ledger>(
    out: &mut Vec<u8>,
    session: &mut Session,
    depot: &mut MemoryDepot,
    steps: &mut Steps<L>,
) -> Result<(), Fail> {
    put_step(out, 1, &unknown_verb(session, depot, steps)?)?;
    put_step(out, 2, &wanting_count(session, depot, steps)?)?;
    put_step(out, 3, &comment(session, depot, steps)?)?;
    put_step(out, 3, &size(session, depot, steps)?)?;
    put_step(out, 4, &events(session, depot, steps)?)?;
    put_step(out, 5, &cleared(session, depot, steps)?)?;
    Ok(())
}

fn see_worked<L: Ledger>(rt: &impl Abort, alloc: Global, blank: Blank) -> Result<(), Fail>
    requires name { blank.name ≡ L.name }
    requires parts { blank.parts ≡ L.parts }
    requires some { 0 < blank.parts }
{
    let mut steps = Steps::<L>::new(blank);
    let mut out = Vec::new(alloc);
    let mut session = start(alloc, BOARD)?;
    let mut depot = depot_of(alloc)?;
    put_worked(&mut out, &mut session, &mut depot, &mut steps)?;
    assert_eq!(rt; str::from_utf8(out.as_slice())?, WRITTEN);
    Ok(())
}

#[test]
fn worked_lines(rt: HostRuntime) -> Result<(), Fail> {
    see_worked::<Brand>(&rt, rt.alloc(), Blank::new(1))
}
