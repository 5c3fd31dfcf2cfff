//! A session within low limits: what its lines are, what it must write, and the comparison of the two.
ghost use Rattle.std.specs.Prelude.{◌≡◌, ◌<◌};

use std::alloc::Global;
use std::marker::Brand;
use std::process::Abort;
use std::sync::ledger::{Blank, Ledger};
use std::test::Fail;
use xf_base::{Limits, OutOfMemory, Steps, Text};
use xf_outside::MemoryDepot;
use xf_reply::{Reply, put_refusal, put_step};
use xf_session::{CsvStart, Session};

/// The board of most cases.
pub(crate) const BOARD: &[u8] = b"a,b\n1,10\n2,20\n2,30\n";

/// A name, a board, the lines of a session, and what is written for its steps and then for its wholes.
pub(crate) type Case = (&'static str, &'static [u8], &'static [u8], &'static str);

/// The files that a session may load.
static FILES: [(&str, &[u8]); 4] = [
    ("two.csv", b"a,b\n3,1\n4,2\n"),
    ("three.csv", b"a,b\n3,1\n4,2\n5,3\n"),
    ("none.csv", b"a,b\n"),
    (
        "long.csv",
        b"a,b\n00000000000000000000000000000000000001,2\n",
    ),
];

/// Limits that a few lines reach: 32 dimensions, 33 groups with wholes, 5 records, 8 entries, 40 bytes of a file.
fn low_limits() -> Limits {
    Limits {
        groups: 33,
        rows: 5,
        entries: 8,
        file_bytes: 40,
        ..Limits::standard()
    }
}

pub(crate) fn depot_of(alloc: Global) -> Result<MemoryDepot, Fail> {
    let mut held = Vec::new(alloc);
    for (name, bytes) in &FILES {
        held.push((Text::of(alloc, name)?, bytes.to_vec(alloc)?))?;
    }
    Ok(MemoryDepot::new(held, Vec::new(alloc)))
}

/// Appends each whole: its name and its fields.
fn put_wholes(out: &mut Vec<u8>, session: &Session) -> Result<(), OutOfMemory> {
    for place in 0..session.whole_count() {
        if let Some((name, id)) = session.whole_at(place) {
            out.extend_from_slice(b"whole ")?;
            out.extend_from_slice(name.as_bytes())?;
            session.put_whole(out, id)?;
            out.push(b'\n')?;
        }
    }
    Ok(())
}

/// Appends what is written for a line, and counts it where it is a step.
fn put_line<L: Ledger>(
    out: &mut Vec<u8>,
    number: &mut u64,
    session: &mut Session,
    depot: &mut MemoryDepot,
    line: &[u8],
    steps: &mut Steps<L>,
) -> Result<(), Fail> {
    let reply = session.apply(line, depot, steps)?;
    if !matches!(reply, Reply::Skipped) {
        *number = number.saturating_add(1);
    }
    put_step(out, *number, &reply)?;
    Ok(())
}

/// Appends what is written for lines in turn, and then the wholes.
fn put_lines<L: Ledger>(
    out: &mut Vec<u8>,
    session: &mut Session,
    depot: &mut MemoryDepot,
    lines: &[u8],
    steps: &mut Steps<L>,
) -> Result<(), Fail> {
    let mut number: u64 = 0;
    for line in lines.split(|byte| *byte == b'\n') {
        put_line(out, &mut number, session, depot, line, steps)?;
    }
    put_wholes(out, session)?;
    Ok(())
}

/// Appends what is written for the lines of a session, with files that it may load.
fn put_session<L: Ledger>(
    out: &mut Vec<u8>,
    alloc: Global,
    session: &mut Session,
    lines: &[u8],
    steps: &mut Steps<L>,
) -> Result<(), Fail> {
    let mut depot = depot_of(alloc)?;
    put_lines(out, session, &mut depot, lines, steps)
}

/// The session of a board within low limits.
pub(crate) fn start(alloc: Global, board: &[u8]) -> Result<Session, CsvStart> {
    let limits = low_limits();
    if limits.dimensions < 32 || limits.groups < 33 {
        return Err(CsvStart::OutOfMemory);
    }
    Session::from_csv(alloc, board, limits)
}

/// What is written for the lines of a session on a board, without the views behind the accepted ones, and the wholes after
/// the last line; for a board that is refused, the words of its cause.
fn written<L: Ledger>(
    alloc: Global,
    board: &[u8],
    lines: &[u8],
    steps: &mut Steps<L>,
) -> Result<Vec<u8>, Fail> {
    let mut out = Vec::new(alloc);
    match start(alloc, board) {
        Ok(mut session) => put_session(&mut out, alloc, &mut session, lines, steps)?,
        Err(CsvStart::Refused(cause)) => put_refusal(&mut out, &cause)?,
        Err(CsvStart::OutOfMemory) => return Err(OutOfMemory.into()),
    }
    Ok(out)
}

/// Runs each session on its board, and compares what is written.
pub(crate) fn see(rt: &impl Abort, alloc: Global, cases: &'static [Case]) -> Result<(), Fail> {
    see_counted::<Brand>(rt, alloc, cases, Blank::new(1))
}

/// The same, in the ledger that the blank becomes.
fn see_counted<L: Ledger>(
    rt: &impl Abort,
    alloc: Global,
    cases: &'static [Case],
    blank: Blank,
) -> Result<(), Fail>
    requires name { blank.name ≡ L.name }
    requires parts { blank.parts ≡ L.parts }
    requires some { 0 < blank.parts }
{
    let mut steps = Steps::<L>::new(blank);
    for (name, board, lines, want) in cases {
        let found = written(alloc, board, lines, &mut steps)?;
        let found = str::from_utf8(found.as_slice())?;
        assert_eq!(rt; found, *want, "{name}");
    }
    Ok(())
}
