//! The program `xf BOARD SESSION`: replays a session on a board, and writes what each step gives.
//!
//! It stands on the library `xf_app`, and only makes what that runs on: a depot over the system's files, a sink over
//! the standard output and a counter of steps. Its one promise: it passes on the user's words, and ends with the number
//! of the status that the run gives. Where a run does not end well it tells a person so on standard error.
#![tactic(auto)]

ghost use Rattle.std.specs.Prelude.{◌≡◌, ◌<◌, [], IfOk, None, map, slice_get, string_bytes, unwrap_or};
ghost use Rattle.xf.specs.Exit.{exit_code};
ghost use Rattle.xf_app.specs.Ends.{IsRun};
ghost use Rattle.xf_app.specs.Run.{run_account};
ghost use Rattle.xf_app.specs.Words.{names_of};

mod report;
#[cfg(test)]
mod tests;

use report::message;
use std::alloc::Global;
use std::env;
use std::io::{ErrorKind, IsTerminal};
use std::marker::Brand;
use std::process::ExitCode;
use std::sync::ledger::{Blank, Ledger};
use xf_app::Status;
use xf_base::{OutOfMemory, Steps};
use xf_outside::{Depot, FileDepot, Sink, StdSink};

fn main(rt: HostRuntime) -> ExitCode {
    let mut depot = FileDepot::new(&rt);
    let mut sink = StdSink::new(&rt);
    let words = words_of(&rt);
    let status = match &words {
        Ok(words) => run(rt.alloc(), words.as_slice(), &mut depot, &mut sink),
        Err(OutOfMemory) => Status::Memory,
    };
    let board = board_of(&words);
    let is_seen = rt.stdout().is_terminal();
    let text = message(
        rt.alloc(),
        status,
        is_seen,
        board,
        depot.failure(),
        sink.failure(),
    );
    tell(&rt, text);
    ExitCode::from(code_of(status))
}

/// The board's name, or an empty text where there are no words.
fn board_of(words: &Result<Vec<String>, OutOfMemory>) -> &str
    ensures { IfOk words.now (λ words. result.now ≡ unwrap_or (slice_get (map string_bytes words.items) 0) []) }
{
    match words {
        Ok(words) => words.first().map_or("", String::as_str),
        Err(OutOfMemory) => "",
    }
}

/// Tells a person a text. That it cannot be written changes nothing.
fn tell(rt: &HostRuntime, text: Result<Vec<u8>, OutOfMemory>) {
    let _ = match text {
        Ok(text) => rt.stderr().write_all(text.as_slice()),
        Err(OutOfMemory) => rt.stderr().write_all(b"xf: out of memory\n"),
    };
}

/// The words after the program's own name. Where one is not UTF-8 there are none, and so the usage line is written.
fn words_of(rt: &HostRuntime) -> Result<Vec<String>, OutOfMemory> {
    match env::args(rt) {
        Ok(words) => Ok(words.skip(1).collect(rt.alloc())?),
        Err(error) if error.kind() == ErrorKind::OutOfMemory => Err(OutOfMemory),
        Err(_) => Ok(Vec::new(rt.alloc())),
    }
}

/// A run whose steps are counted from 0 on.
fn run<D: Depot, S: Sink>(alloc: Global, words: &[String], depot: &mut D, sink: &mut S) -> Status
    ensures meets { let run = run_account (map string_bytes words.now)
        (D.account depot.old, S.account sink.old) (D.account depot.new, S.account sink.new)
        in IsRun run result }
    ensures untouched { names_of (map string_bytes words.now) ≡ None → depot.new ≡ depot.old }
{
    run_counted::<D, S, Brand>(alloc, words, depot, sink, Blank::new(1))
}

/// The same, in the ledger that the blank becomes.
fn run_counted<D: Depot, S: Sink, L: Ledger>(
    alloc: Global,
    words: &[String],
    depot: &mut D,
    sink: &mut S,
    blank: Blank,
) -> Status
    requires name { blank.name ≡ L.name }
    requires parts { blank.parts ≡ L.parts }
    requires some { 0 < blank.parts }
    ensures meets { let run = run_account (map string_bytes words.now)
        (D.account depot.old, S.account sink.old) (D.account depot.new, S.account sink.new)
        in IsRun run result }
    ensures untouched { names_of (map string_bytes words.now) ≡ None → depot.new ≡ depot.old }
{
    let mut steps = Steps::<L>::new(blank);
    xf_app::run(alloc, words, depot, sink, &mut steps)
}

/// The exit status that tells how a run ended.
fn code_of(status: Status) -> u8
    ensures { result ≡ exit_code status }
{
    match status {
        Status::Done => 0,
        Status::DoneWithRefusals => 1,
        Status::Usage => 2,
        Status::BoardRefused => 3,
        Status::ReadFault => 4,
        Status::WriteFault => 5,
        Status::Memory => 6,
        Status::Absent => 7,
        Status::TooLong => 8,
    }
}
