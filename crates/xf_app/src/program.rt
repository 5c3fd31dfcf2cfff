//! The program: the way from its words to a board and a session, and what is put for them.
ghost use Rattle.std.specs.Prelude.{◌≡◌, None, map, string_bytes};
ghost use Rattle.xf_app.specs.Ends.{IsRun};
ghost use Rattle.xf_app.specs.Run.{CountsFaults, CountsMisses, HasCause, Headline, MeetsDue, run_account};
ghost use Rattle.xf_app.specs.Words.{names_of};

use crate::output::{tell, tell_refused, tell_unfetched};
use crate::replay::replay;
use crate::start::start_of;
use crate::status::Status;
use crate::words::names_of;
use std::alloc::Global;
use std::sync::ledger::Ledger;
use xf_base::{Limits, Steps};
use xf_outside::{Depot, Sink};

const USAGE: &[u8] = b"usage: xf [--view page|data] [--demo N] BOARD SESSION\n";

/// Replays a session on a board. The words are `BOARD SESSION`, the names of two files that the depot holds: a CSV file
/// where the name of the board ends in `.csv`, else a board file. What is written goes to the sink. Beside the files that
/// lines load nothing else is read, and nothing else is written.
pub fn run<D: Depot, S: Sink, L: Ledger>(
    alloc: Global,
    words: &[String],
    depot: &mut D,
    sink: &mut S,
    steps: &mut Steps<L>,
) -> Status
    // Why it ended so: the cause of each status, and that no count rises but for the one fault or miss that is told.
    ensures cause { let run = run_account (map string_bytes words.now)
        (D.account depot.old, S.account sink.old) (D.account depot.new, S.account sink.new)
        in HasCause run result }
    ensures faults { let run = run_account (map string_bytes words.now)
        (D.account depot.old, S.account sink.old) (D.account depot.new, S.account sink.new)
        in CountsFaults run result }
    ensures misses { let run = run_account (map string_bytes words.now)
        (D.account depot.old, S.account sink.old) (D.account depot.new, S.account sink.new)
        in CountsMisses run result }

    // What was put: all that is due for these words and files, with the status that is due, or a first part of it.
    ensures due { let run = run_account (map string_bytes words.now)
        (D.account depot.old, S.account sink.old) (D.account depot.new, S.account sink.new)
        in MeetsDue run result }

    // So the bytes put are the session's text, where board and session are held and accepted and nothing failed.
    ensures headline { let run = run_account (map string_bytes words.now)
        (D.account depot.old, S.account sink.old) (D.account depot.new, S.account sink.new)
        in Headline run result }

    ensures untouched { names_of (map string_bytes words.now) ≡ None → depot.new ≡ depot.old }
{
    answer(alloc, words, depot, sink, steps)
}

/// The same, as one record.
fn answer<D: Depot, S: Sink, L: Ledger>(
    alloc: Global,
    words: &[String],
    depot: &mut D,
    sink: &mut S,
    steps: &mut Steps<L>,
) -> Status
    ensures meets { let run = run_account (map string_bytes words.now)
        (D.account depot.old, S.account sink.old) (D.account depot.new, S.account sink.new)
        in IsRun run result }
    ensures untouched { names_of (map string_bytes words.now) ≡ None → depot.new ≡ depot.old }
{
    let Some((board_name, session_name)) = names_of(words) else {
        return tell(sink, USAGE, Status::Usage);
    };
    let bytes = match depot.fetch(alloc, board_name, Limits::FILE_BYTES) {
        Ok(bytes) => bytes,
        Err(fault) => return tell_unfetched(alloc, sink, board_name, fault),
    };
    let start = match start_of(alloc, board_name, bytes.as_slice()) {
        Ok(start) => start,
        Err(refusal) => return tell_refused(alloc, sink, &refusal),
    };
    drop(bytes);
    let session = match depot.fetch(alloc, session_name, Limits::FILE_BYTES) {
        Ok(session) => session,
        Err(fault) => return tell_unfetched(alloc, sink, session_name, fault),
    };
    replay(alloc, start, session.as_slice(), depot, sink, steps)
}
