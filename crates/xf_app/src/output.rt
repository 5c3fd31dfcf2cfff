//! What a run puts, and how it ends with that.
ghost use Rattle.std.specs.Prelude.{◌≡◌, IfErr, IfOk, OnOk};
ghost use Rattle.xf_app.specs.Due.{absent_line, refused_line, too_long_line};
ghost use Rattle.xf_app.specs.Ends.{Ends, EndsRefused, EndsUnfetched, PutsWhole, StopsIn};

use crate::start::StartRefusal;
use crate::status::Status;
use std::alloc::Global;
use xf_base::{Limits, OutOfMemory, put_number, put_word};
use xf_board::put_board_refusal;
use xf_outside::{FetchFault, PutFault, Sink};
use xf_reply::put_refusal;

/// Puts a text, or gives the status with which the run ends.
pub fn put<S: Sink>(sink: &mut S, text: &[u8]) -> Result<(), Status>
    ensures ok { OnOk result (PutsWhole text.now (S.account sink.old) (S.account sink.new)) }
    ensures err { IfErr result (λ status. StopsIn text.now (S.account sink.old) (S.account sink.new) status) }
{
    match sink.put(text) {
        Ok(()) => Ok(()),
        Err(PutFault::Failed) => Err(Status::WriteFault),
        Err(PutFault::OutOfMemory) => Err(Status::Memory),
    }
}

/// Ends the run with a status and the line that tells it.
pub fn tell<S: Sink>(sink: &mut S, line: &[u8], status: Status) -> Status
    ensures { Ends (record { status = status; text = line.now }) (S.account sink.old) (S.account sink.new) result }
{
    match put(sink, line) {
        Ok(()) => status,
        Err(fault) => fault,
    }
}

/// Ends the run where the board's file has no session.
pub fn tell_refused<S: Sink>(alloc: Global, sink: &mut S, refusal: &StartRefusal) -> Status
    ensures { EndsRefused refusal.now (S.account sink.old) (S.account sink.new) result }
{
    match refused_line(alloc, refusal) {
        Ok(line) => tell(sink, line.as_slice(), Status::BoardRefused),
        Err(OutOfMemory) => Status::Memory,
    }
}

/// Ends the run where a file was not fetched.
pub fn tell_unfetched<S: Sink>(alloc: Global, sink: &mut S, name: &str, fault: FetchFault) -> Status
    ensures { EndsUnfetched fault name.now (S.account sink.old) (S.account sink.new) result }
{
    let (line, status) = match fault {
        FetchFault::Failed => return Status::ReadFault,
        FetchFault::OutOfMemory => return Status::Memory,
        FetchFault::Absent => (absent_line(alloc, name), Status::Absent),
        FetchFault::TooLong => (too_long_line(alloc, name), Status::TooLong),
    };
    match line {
        Ok(line) => tell(sink, line.as_slice(), status),
        Err(OutOfMemory) => Status::Memory,
    }
}

/// The line of a refused board. There is none where memory was refused.
fn refused_line(alloc: Global, refusal: &StartRefusal) -> Result<Vec<u8>, OutOfMemory>
    ensures cause { IfOk result (λ line. line.items ≡ refused_line refusal.now) }
    ensures memory { IfOk result (λ _. refusal.now ≡ StartRefusal.OutOfMemory → ⊥) }
{
    let mut line = Vec::from_slice(alloc, b"board refused ")?;
    match refusal {
        StartRefusal::Data(cause) => put_refusal(&mut line, cause)?,
        StartRefusal::Board(cause) => put_board_refusal(&mut line, cause)?,
        StartRefusal::OutOfMemory => return Err(OutOfMemory),
    }
    line.push(b'\n')?;
    Ok(line)
}

/// The line of a file that is not there.
fn absent_line(alloc: Global, name: &str) -> Result<Vec<u8>, OutOfMemory>
    ensures { IfOk result (λ line. line.items ≡ absent_line name.now) }
{
    let mut line = Vec::from_slice(alloc, b"absent ")?;
    put_word(&mut line, name.as_bytes())?;
    line.push(b'\n')?;
    Ok(line)
}

/// The line of a file that is too long.
fn too_long_line(alloc: Global, name: &str) -> Result<Vec<u8>, OutOfMemory>
    ensures { IfOk result (λ line. line.items ≡ too_long_line name.now) }
{
    let mut line = Vec::from_slice(alloc, b"too long ")?;
    put_word(&mut line, name.as_bytes())?;
    line.push(b' ')?;
    put_number(&mut line, Limits::FILE_BYTES)?;
    line.push(b'\n')?;
    Ok(line)
}
