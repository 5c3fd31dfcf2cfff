//! The words of a refusal.
ghost use Rattle.std.specs.Prelude.{◌≡◌, ◌∷◌, ◌++◌, take, vec_len, codes, decimal, OnOk, OnErr};
ghost use Rattle.xf_base.specs.Word.{word_text};
ghost use Rattle.xf_members.specs.Printed.{refusal_words};

use crate::board_refusal::BoardRefusal;
use xf_base::{OutOfMemory, Text, put_number, put_word};

/// Appends why a text is no board, in words.
pub fn put_board_refusal(out: &mut Vec<u8>, refusal: &BoardRefusal) -> Result<(), OutOfMemory>
    ensures ok { OnOk result (out.new.items ≡ out.old.items ++ refusal_words refusal.now) }
    ensures err { OnErr result (out.new.items ≡ out.old.items) }
{
    let start = out.len();
    let appended = put_words(out, refusal);
    if appended.is_err() {
        out.truncate(start);
    }
    appended
}

/// Appends the words, or only their front where memory is refused.
fn put_words(out: &mut Vec<u8>, refusal: &BoardRefusal) -> Result<(), OutOfMemory>
    ensures ok { OnOk result (out.new.items ≡ out.old.items ++ refusal_words refusal.now) }
    ensures err { OnErr result (take (vec_len out.old) out.new.items ≡ out.old.items) }
{
    match refusal {
        BoardRefusal::Syntax => put_text(out, "syntax"),
        BoardRefusal::Version { found } => {
            put_text(out, "version ")?;
            put_number(out, *found)
        }
        BoardRefusal::Unknown { path } => put_at(out, "unknown ", path),
        BoardRefusal::Field { path } => put_at(out, "field ", path),
        BoardRefusal::Name { path, name } => {
            put_at(out, "name ", path)?;
            put_at(out, " ", name)
        }
        BoardRefusal::Limit { path, limit } => {
            put_at(out, "limit ", path)?;
            put_text(out, " ")?;
            put_number(out, *limit)
        }
        BoardRefusal::OutOfMemory => put_text(out, "out of memory"),
    }
}

/// Appends a text as it is.
fn put_text(out: &mut Vec<u8>, text: &str) -> Result<(), OutOfMemory>
    ensures ok { OnOk result (out.new.items ≡ out.old.items ++ text.now) }
    ensures err { OnErr result (out.new.items ≡ out.old.items) }
{
    out.extend_from_slice(text.as_bytes())?;
    Ok(())
}

/// Appends words and a text as a word, or only their front where memory is refused.
fn put_at(out: &mut Vec<u8>, words: &str, text: &Text) -> Result<(), OutOfMemory>
    ensures ok { OnOk result (out.new.items ≡ out.old.items ++ (words.now ++ word_text text.now)) }
    ensures err { OnErr result (take (vec_len out.old) out.new.items ≡ out.old.items) }
{
    put_text(out, words)?;
    put_word(out, text.as_str().as_bytes())
}
