//! Reading the command that a line says.
ghost use Rattle.std.specs.Prelude.{◌≡◌, IsUtf8};
ghost use Rattle.std.specs.List.{AllByRecursion};
ghost use Rattle.xf_script.specs.Grammar.{Answers, broken_at, form_of_line, form_of_split, form_of_words};

use crate::command::Command;
use crate::forms::form_of;
use crate::line::{Split, is_comment, split_line};
use crate::line_refusal::LineRefusal;
use crate::one_word::bad_word;
use crate::opener::verb_of;
use std::alloc::Global;
use xf_base::{Limits, TextList};

/// What a line says. None is a line that is no step: a blank line or a comment.
///
/// A line has at most 65,536 bytes, its end not counted, and is UTF-8. Its words stand between blanks and tabs. A word
/// that begins with `"` ends at the next `"` without a `\` as its escape, behind which a blank, a tab or the end of the
/// line comes; in it `\\`, `\"`, `\n`, `\r` and `\t` are escapes.
pub fn read_command(alloc: Global, line: &[u8]) -> Result<Option<Command>, LineRefusal>
    ensures exact { Answers result (form_of_line line.now) }
{
    if line.len() as u64 > Limits::LINE_BYTES {
        return Err(LineRefusal::TooLong {
            length: line.len() as u64,
        });
    }
    let text = match str::from_utf8(line) {
        Ok(text) => text,
        Err(error) => {
            return Err(LineRefusal::NotText {
                place: error.valid_up_to() as u64,
            });
        }
    };
    if is_comment(text) {
        return Ok(None);
    }
    command_of_split(alloc, split_line(alloc, text)?)
}

/// What the words of a line say. Where one is malformed, a fault in a word before it stands, and else it is the bad word.
fn command_of_split(alloc: Global, split: Split) -> Result<Option<Command>, LineRefusal>
    requires { AllByRecursion IsUtf8 split.words }
    ensures { Answers result (form_of_split (record { words = split.words; is_broken = split.is_broken })) }
{
    let number = split.words.len() + 1;
    let read = command_of(alloc, split.words);
    if split.is_broken {
        broken_at(number, read)
    } else {
        read
    }
}

/// A malformed word behind those that were read.
fn broken_at<A: Drop>(number: usize, read: Result<A, LineRefusal>) -> Result<A, LineRefusal>
    ensures { result ≡ broken_at number read }
{
    match read {
        Ok(_) => Err(bad_word(number)),
        Err(fault) => Err(fault),
    }
}

/// What words say. None where there are none.
fn command_of(alloc: Global, words: TextList) -> Result<Option<Command>, LineRefusal>
    requires { AllByRecursion IsUtf8 words }
    ensures { Answers result (form_of_words words) }
{
    match words.as_slice() {
        [] => Ok(None),
        [first, ..] => match verb_of(first.as_str()) {
            Some(verb) => Ok(Some(Command::of(form_of(alloc, verb, words)?))),
            None => Err(LineRefusal::Verb),
        },
    }
}
