//! The parts of which the texts of a reply are made.
ghost use Rattle.std.specs.Prelude.{◌∷◌, ◌++◌, OnOk, decimal};
ghost use Rattle.xf_base.specs.Word.{word_text};
ghost use Rattle.xf_reply.specs.Put.{Puts};

use itoa::Buffer;
use xf_base::{OutOfMemory, Text, put_word};

/// Appends a text as it is.
pub(crate) fn put_text(out: &mut Vec<u8>, text: &str) -> Result<(), OutOfMemory>
    ensures { OnOk result (Puts out.old.items out.new.items text.now) }
{
    out.extend_from_slice(text.as_bytes())?;
    Ok(())
}

/// Appends a count in decimal.
pub(crate) fn put_count(out: &mut Vec<u8>, count: u64) -> Result<(), OutOfMemory>
    ensures { OnOk result (Puts out.old.items out.new.items (decimal count)) }
{
    let mut digits = Buffer::new();
    put_text(out, digits.format(count))
}

/// Appends a blank and a count.
pub(crate) fn put_next_count(out: &mut Vec<u8>, count: u64) -> Result<(), OutOfMemory>
    ensures { OnOk result (Puts out.old.items out.new.items (32 ∷ decimal count)) }
{
    put_text(out, " ")?;
    put_count(out, count)?;
    Ok(())
}

/// Appends words and a count.
pub(crate) fn put_counted(out: &mut Vec<u8>, words: &str, count: u64) -> Result<(), OutOfMemory>
    ensures { OnOk result (Puts out.old.items out.new.items (words.now ++ decimal count)) }
{
    put_text(out, words)?;
    put_count(out, count)?;
    Ok(())
}

/// Appends a name as a word.
pub(crate) fn put_name(out: &mut Vec<u8>, name: &Text) -> Result<(), OutOfMemory>
    ensures { OnOk result (Puts out.old.items out.new.items (word_text name.now)) }
{
    let name = name.as_str();
    put_word(out, name.as_bytes())
}

/// Appends a blank and a name as a word.
pub(crate) fn put_next_name(out: &mut Vec<u8>, name: &Text) -> Result<(), OutOfMemory>
    ensures { OnOk result (Puts out.old.items out.new.items (32 ∷ word_text name.now)) }
{
    put_text(out, " ")?;
    put_name(out, name)?;
    Ok(())
}
