//! What a person is told on standard error of a run that did not end well.
ghost use Rattle.std.specs.Prelude.{◌≡◌, ℕ, ◌∷◌, [], ◌++◌, List, codes, IfOk, OnOk, option_map, string_bytes};
ghost use Rattle.xf.specs.Report.{report_line, reported_name};
ghost use Rattle.xf_base.specs.Word.{word_text};

use std::alloc::{AllocError, Global};
use std::io;
use xf_app::Status;
use xf_base::{OutOfMemory, put_word};
use xf_outside::FetchFailure;

const USAGE: &[u8] =
    b"xf: usage: xf [--view page|data] [--demo N] BOARD SESSION, where BOARD is a board file, or a CSV file whose name ends in .csv\n";

const BOARD_RULE: &[u8] = b"xf: BOARD is a board file, or a CSV file whose name ends in .csv\n";

/// The line for a run that ended with a status, in the manner of Unix tools, or nothing. `fetch` is the last fetch that
/// gave no bytes, and `put` the error of the last put that failed. `is_seen` says that the person has standard output
/// before them: what stands there is not said twice.
pub fn message(
    alloc: Global,
    status: Status,
    is_seen: bool,
    board: &str,
    fetch: Option<&FetchFailure>,
    put: Option<io::Error>,
) -> Result<Vec<u8>, OutOfMemory>
    // The words of a fault's cause are the system's.
    ensures { let name = reported_name status board.now (option_map (λ failure. option_map string_bytes failure.now.name) fetch.entry)
        in IfOk result (λ text. (cause : List ℕ) × (text.items ≡ report_line status is_seen name cause)) }
{
    let name = name_of(status, board, fetch);
    let cause = cause_of(alloc, status, fetch, put)?;
    line(alloc, status, is_seen, name, cause.as_str())
}

/// The name of the file at which the run ended.
fn name_of<'a>(status: Status, board: &'a str, fetch: Option<&'a FetchFailure>) -> &'a str
    ensures { result.now ≡ reported_name status board.now (option_map (λ failure. option_map string_bytes failure.now.name) fetch.entry) }
{
    match (status, fetch) {
        (Status::BoardRefused, _) | (_, None) => board,
        (_, Some(failure)) => failure.name.as_ref().map_or("file", String::as_str),
    }
}

/// Why the run could not go on, in the system's words, or nothing where the status says all.
fn cause_of(
    alloc: Global,
    status: Status,
    fetch: Option<&FetchFailure>,
    put: Option<io::Error>,
) -> Result<String, AllocError> {
    match (status, fetch, put) {
        (Status::WriteFault, _, Some(error)) => format!(in alloc; "{error}"),
        (_, Some(failure), _) => format!(in alloc; "{}", failure.cause),
        _ => Ok(String::new(alloc)),
    }
}

/// The line for a status, of a file with a name and for a cause.
fn line(
    alloc: Global,
    status: Status,
    is_seen: bool,
    name: &str,
    cause: &str,
) -> Result<Vec<u8>, OutOfMemory>
    ensures { IfOk result (λ text. text.items ≡ report_line status is_seen name.now cause.now) }
{
    let text = match (status, is_seen) {
        (Status::Done | Status::DoneWithRefusals, _)
        | (Status::BoardRefused | Status::Absent | Status::TooLong, true) => Vec::new(alloc),
        (Status::Usage, true) => Vec::from_slice(alloc, BOARD_RULE)?,
        (Status::Usage, false) => Vec::from_slice(alloc, USAGE)?,
        (Status::BoardRefused, false) => {
            named(
                alloc,
                b"xf: ",
                name,
                "board refused; standard output says why",
            )?
        }
        (Status::Absent, false) => named(alloc, b"xf: ", name, "no such file")?,
        (Status::TooLong, false) => named(alloc, b"xf: ", name, cause)?,
        (Status::ReadFault, _) => named(alloc, b"xf: cannot read ", name, cause)?,
        (Status::WriteFault, _) => caused(alloc, b"xf: cannot write", cause)?,
        (Status::Memory, _) => Vec::from_slice(alloc, b"xf: out of memory\n")?,
    };
    Ok(text)
}

/// A line of a beginning, a name as a word, and a cause.
fn named(alloc: Global, beginning: &[u8], name: &str, cause: &str) -> Result<Vec<u8>, OutOfMemory>
    ensures { IfOk result (λ text. text.items ≡ beginning.now ++ word_text name.now ++ codes ": " ++ cause.now ++ 10 ∷ []) }
{
    let mut text = Vec::from_slice(alloc, beginning)?;
    put_word(&mut text, name.as_bytes())?;
    put_cause(&mut text, cause)?;
    Ok(text)
}

/// A line of a beginning and a cause.
fn caused(alloc: Global, beginning: &[u8], cause: &str) -> Result<Vec<u8>, OutOfMemory>
    ensures { IfOk result (λ text. text.items ≡ beginning.now ++ codes ": " ++ cause.now ++ 10 ∷ []) }
{
    let mut text = Vec::from_slice(alloc, beginning)?;
    put_cause(&mut text, cause)?;
    Ok(text)
}

/// Appends a cause after a colon, and the line's end.
fn put_cause(text: &mut Vec<u8>, cause: &str) -> Result<(), OutOfMemory>
    ensures { OnOk result (text.new.items ≡ text.old.items ++ codes ": " ++ cause.now ++ 10 ∷ []) }
{
    text.extend_from_slice(b": ")?;
    text.extend_from_slice(cause.as_bytes())?;
    text.push(b'\n')?;
    Ok(())
}

#[cfg(test)]
mod tests;
