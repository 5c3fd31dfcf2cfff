//! The answer to a line, and the text of its step.
ghost use Rattle.std.specs.Prelude.{◌≡◌, ◌∷◌, ◌++◌, [], OnOk, IsUtf8, codes, decimal};
ghost use Rattle.xf_reply.specs.Put.{Puts};
ghost use Rattle.xf_reply.specs.Refused.{refusal_number, refusal_words};
ghost use Rattle.xf_reply.specs.Step.{HasText, change_words, reply_text, step_line};

use crate::put::{put_counted, put_text};
use crate::refusal::{Refusal, put_words};
use xf_base::{ListOf, OutOfMemory};

/// Bytes, seen as their list.
pub type Bytes = ListOf<u8>;

/// What changed.
#[derive(Clone, Copy, Debug, PartialEq, Eq)]
pub enum Change {
    /// Something with no number.
    Plain,
    /// So many records came.
    Added(u64),
    /// So many went.
    Removed(u64),
    /// So many keys of records went in or out.
    Moved(u64),
}

/// How a line is answered.
#[derive(Debug, Drop)]
pub enum Reply {
    /// The line is no step.
    Skipped,
    /// The line was accepted and changed something.
    Changed(Change),
    /// The line was accepted; these are the lines of its answer, each with its line feed.
    Answer(Bytes),
    /// The line was refused and changed nothing.
    Refused(Refusal),
}

/// Appends what is written for a reply as the step of this number: one line, and the lines of an answer behind it;
/// nothing for a line that is no step. Where memory is refused a part of it may stand in `out`.
pub fn put_step(out: &mut Vec<u8>, number: u64, reply: &Reply) -> Result<(), OutOfMemory>
    ensures ok { OnOk result (out.new.items ≡ out.old.items ++ reply_text number reply.now) }
    ensures utf8 { OnOk result (HasText reply.now → IsUtf8 (reply_text number reply.now)) }
{
    match reply {
        Reply::Skipped => {}
        Reply::Changed(change) => put_changed(out, number, *change)?,
        Reply::Answer(lines) => {
            put_changed(out, number, Change::Plain)?;
            out.extend_from_slice(lines.as_slice())?;
        }
        Reply::Refused(cause) => put_refused(out, number, cause)?,
    }
    Ok(())
}

/// Appends the line of a step that was done.
fn put_changed(out: &mut Vec<u8>, number: u64, change: Change) -> Result<(), OutOfMemory>
    ensures { OnOk result (Puts out.old.items out.new.items (step_line number (codes "ok" ++ change_words change))) }
{
    put_counted(out, "step ", number)?;
    put_text(out, " ok")?;
    put_change(out, change)?;
    put_text(out, "\n")?;
    Ok(())
}

/// Appends how many records came, went or moved.
fn put_change(out: &mut Vec<u8>, change: Change) -> Result<(), OutOfMemory>
    ensures { OnOk result (Puts out.old.items out.new.items (change_words change)) }
{
    match change {
        Change::Plain => put_text(out, ""),
        Change::Added(count) => put_counted(out, " added ", count),
        Change::Removed(count) => put_counted(out, " removed ", count),
        Change::Moved(count) => put_counted(out, " moved ", count),
    }
}

/// Appends the line of a step that was refused.
fn put_refused(out: &mut Vec<u8>, number: u64, cause: &Refusal) -> Result<(), OutOfMemory>
    ensures { OnOk result (Puts out.old.items out.new.items
        (step_line number (codes "refused " ++ decimal (refusal_number cause.now) ++ 32 ∷ refusal_words cause.now))) }
{
    put_counted(out, "step ", number)?;
    put_counted(out, " refused ", cause.number())?;
    put_text(out, " ")?;
    put_words(out, cause)?;
    put_text(out, "\n")?;
    Ok(())
}
