//! A session on a board: its lines in turn, and what is put for each.
ghost use Rattle.std.specs.Prelude.{◌≡◌, ◌+◌, ◌^◌, ◌<◌, ◌≤◌, ◌++◌, IfSome, OnOk};
ghost use Rattle.xf_app.specs.Ends.{Advances, Counted, CountedLine, Follows, LeadsTo, Plays, line_text, reply_refusals, reply_steps, reply_view, sides};
ghost use Rattle.xf_session.specs.Asked.{FaultsAfter};

use crate::lines::{first_line, text_of};
use crate::output::put;
use crate::page::put_data_view;
use crate::status::Status;
use std::alloc::Global;
use std::sync::ledger::Ledger;
use xf_base::{OutOfMemory, Steps};
use xf_outside::{Depot, Sink};
use xf_reply::{Reply, put_step};
use xf_session::{Session, SessionFault};

/// The number of the last step so far, and how many steps were refused.
#[derive(Clone, Copy, Debug, PartialEq, Eq)]
pub struct Tally {
    pub number: u64,
    pub refusals: u64,
}

impl Tally {
    /// Counts a line by its reply.
    fn count(&mut self, reply: &Reply)
        requires room { self.old.number + 1 < 2 ^ 64 }
        requires few { self.old.refusals ≤ self.old.number }
        ensures number { self.new.number ≡ self.old.number + reply_steps reply.now }
        ensures refusals { self.new.refusals ≡ self.old.refusals + reply_refusals reply.now }
        ensures follows { Follows self.old self.new }
    {
        match reply {
            Reply::Skipped => {}
            Reply::Refused(_) => {
                self.number += 1;
                self.refusals += 1;
            }
            Reply::Changed(_) | Reply::Answer(_) => self.number += 1,
        }
    }
}

/// Takes the lines of a session in turn from its start, and puts what is written for each in one piece.
pub fn replay<D: Depot, S: Sink, L: Ledger>(
    alloc: Global,
    mut session: Session,
    bytes: &[u8],
    depot: &mut D,
    sink: &mut S,
    steps: &mut Steps<L>,
) -> Status
    ensures counted { Counted result (sides (D.account depot.old) (S.account sink.old)) (sides (D.account depot.new) (S.account sink.new)) }
    ensures told { IfSome (D.account depot.old).files (λ files. Plays files session bytes.now (S.account sink.old) (S.account sink.new) result) }
{
    let mut rest = text_of(bytes);
    let mut out = Vec::new(alloc);
    let mut tally = Tally {
        number: 0,
        refusals: 0,
    };
    while !rest.is_empty() {
        let (line, later) = first_line(rest);
        rest = later;
        if let Err(status) = advance(&mut session, line, &mut tally, &mut out, depot, sink, steps) {
            return status;
        }
    }
    if tally.refusals == 0 {
        Status::Done
    } else {
        Status::DoneWithRefusals
    }
}

/// Does one line, and puts what is written for it. An error is the status with which the run ends.
fn advance<D: Depot, S: Sink, L: Ledger>(
    session: &mut Session,
    line: &[u8],
    tally: &mut Tally,
    out: &mut Vec<u8>,
    depot: &mut D,
    sink: &mut S,
    steps: &mut Steps<L>,
) -> Result<(), Status>
    requires room { tally.old.number + 1 < 2 ^ 64 }
    requires few { tally.old.refusals ≤ tally.old.number }
    ensures files { (D.account depot.new).files ≡ (D.account depot.old).files }
    ensures follows { OnOk result (Follows tally.old tally.new) }
    ensures counted { CountedLine tally.old tally.new (sides (D.account depot.old) (S.account sink.old)) (sides (D.account depot.new) (S.account sink.new)) result }
    ensures told { IfSome (D.account depot.old).files (λ files.
        Advances files session.old tally.old line.now session.new tally.new (S.account sink.old) (S.account sink.new) result) }
{
    match step(session, line, tally, out, depot, steps) {
        Ok(()) if out.is_empty() => Ok(()),
        Ok(()) => put(sink, out.as_slice()),
        Err(SessionFault::ReadFault) => Err(Status::ReadFault),
        Err(SessionFault::OutOfMemory) => Err(Status::Memory),
    }
}

/// Does one line. What is to be put for it stands in `out` then, and nothing else; for a line that is no step that is
/// nothing. Where memory is refused the line may be done already; the run ends then.
fn step<D: Depot, L: Ledger>(
    session: &mut Session,
    line: &[u8],
    tally: &mut Tally,
    out: &mut Vec<u8>,
    depot: &mut D,
    steps: &mut Steps<L>,
) -> Result<(), SessionFault>
    requires room { tally.old.number + 1 < 2 ^ 64 }
    requires few { tally.old.refusals ≤ tally.old.number }
    ensures files { (D.account depot.new).files ≡ (D.account depot.old).files }
    ensures follows { OnOk result (Follows tally.old tally.new) }
    ensures faults { FaultsAfter result (D.account depot.old).faults (D.account depot.new).faults }
    ensures found { OnOk result (tally.new.refusals ≡ tally.old.refusals → (D.account depot.new).misses ≡ (D.account depot.old).misses) }
    ensures leads { IfSome (D.account depot.old).files (λ files. OnOk result (LeadsTo files session.old tally.old line.now session.new tally.new)) }
    ensures text { IfSome (D.account depot.old).files (λ files. OnOk result (out.new.items ≡ line_text files session.old tally.old line.now)) }
{
    out.clear();
    let reply = session.apply(line, depot, steps)?;
    put_step(out, tally.number + 1, &reply)?;
    put_view_after(out, session, &reply, steps)?;
    tally.count(&reply);
    Ok(())
}

/// Appends the view that stands behind the text of a line: that of the session after an accepted one, else nothing.
fn put_view_after<L: Ledger>(
    out: &mut Vec<u8>,
    session: &Session,
    reply: &Reply,
    steps: &mut Steps<L>,
) -> Result<(), OutOfMemory>
    ensures ok { OnOk result (out.new.items ≡ out.old.items ++ reply_view session.now reply.now) }
{
    match reply {
        Reply::Skipped | Reply::Refused(_) => Ok(()),
        Reply::Changed(_) | Reply::Answer(_) => put_data_view(out, session, steps),
    }
}
