//! Calls with values worked by hand: each makes one call or two, and its contract says what that gives. So the contracts of
//! the calls are seen to say enough to know it.
#![tactic(auto, unfolding(crate::specs::Opened::is_utf8, crate::specs::Opened::chars, crate::specs::Opened::encode, crate::specs::Opened::utf8_valid_len, crate::specs::Opened::digits))]

ghost use Rattle.std.specs.Prelude.{◌≡◌, ◌≤◌, ◌++◌, codes, length, OnOk, Some, None, Ok, Err};
ghost use Rattle.xf_script.specs.Canonical.{command_line};
ghost use Rattle.xf_script.specs.Grammar.{Answers};
ghost use Rattle.xf_script.specs.declared.command.CommandForm.TheVariants.{Top};
ghost use Rattle.xf_script.specs.declared.line_refusal.LineRefusal.TheVariants.{NotText, Verb, Word};

use std::alloc::Global;
use xf_base::{Limits, OutOfMemory};
use xf_reply::{Field, Refusal, Reply, put_fields, put_step};
use xf_script::{Command, LineRefusal, print_command, read_command};

/// A line whose first word is no verb.
pub fn no_verb(alloc: Global) -> Result<Option<Command>, LineRefusal>
    ensures { Answers result (Err Verb) }
{
    read_command(alloc, b"fly")
}

/// A line that ends before its third word, a count.
pub fn wanting_count(alloc: Global) -> Result<Option<Command>, LineRefusal>
    ensures { Answers result (Err (Word 3)) }
{
    read_command(alloc, b"top d")
}

/// A line that is UTF-8 up to its last byte.
pub fn no_text(alloc: Global) -> Result<Option<Command>, LineRefusal>
    ensures { Answers result (Err (NotText 5)) }
{
    read_command(alloc, b"size \xff")
}

/// A comment, which is no step.
pub fn comment(alloc: Global) -> Result<Option<Command>, LineRefusal>
    ensures { Answers result (Ok None) }
{
    read_command(alloc, b" # size")
}

/// A name with a blank between quotes, and a count.
pub fn greatest_three(alloc: Global) -> Result<Option<Command>, LineRefusal>
    ensures { Answers result (Ok (Some (Top (codes "a b") 3 None))) }
{
    read_command(alloc, b"top \"a b\" 3")
}

/// Any command, printed and read again.
pub fn again(alloc: Global, command: &Command) -> Result<Option<Command>, LineRefusal>
    ensures { length (command_line command.now) ≤ Limits.LINE_BYTES → Answers result (Ok (Some command.now)) }
{
    let line = print_command(alloc, command)?;
    read_command(alloc, line.as_slice())
}

/// The step of a line that was refused for its third word.
pub fn refused_step(out: &mut Vec<u8>) -> Result<(), OutOfMemory>
    ensures { OnOk result (out.new.items ≡ out.old.items ++ codes "step 7 refused 4 bad word 3\n") }
{
    put_step(out, 7, &Reply::Refused(Refusal::BadWord { number: 3 }))
}

/// A number less than a tenth below 0, in hundredths.
pub fn hundredths(out: &mut Vec<u8>) -> Result<(), OutOfMemory>
    ensures { OnOk result (out.new.items ≡ out.old.items ++ codes " -0.05") }
{
    put_fields(
        out,
        &[Field {
            number: -5,
            decimals: 2,
        }],
    )
}
