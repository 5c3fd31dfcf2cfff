//! Texts as words of a line.
ghost use Rattle.std.specs.Prelude.{◌≡◌, ◌==◌, [], ◌∷◌, ◌++◌, not, ◌||◌, length, take, flat_map, vec_len, OnOk, OnErr, IsUtf8};
ghost use Rattle.std.specs.List.{list_any};
ghost use Rattle.xf_base.specs.Word.{needs_quotes, escape_of, word_text};

use crate::out_of_memory::OutOfMemory;

/// Appends a text as one word: as it is, or between double quotes where it is empty or has a blank, a tab, a quote
/// or a line's end.
pub fn put_word(out: &mut Vec<u8>, text: &[u8]) -> Result<(), OutOfMemory>
    ensures ok { OnOk result (out.new.items ≡ out.old.items ++ word_text text.now) }
    ensures err { OnErr result (out.new.items ≡ out.old.items) }
    ensures utf8 { IsUtf8 text.now → IsUtf8 (word_text text.now) }
{
    if is_bare(text) {
        out.extend_from_slice(text)?;
        return Ok(());
    }
    let start = out.len();
    let appended = append_quoted(out, text);
    if appended.is_err() {
        out.truncate(start);
    }
    appended
}

/// Whether a text is a word as it is.
fn is_bare(text: &[u8]) -> bool
    ensures { result ≡ not ((length text.now == 0) || list_any needs_quotes text.now) }
{
    !text.is_empty() && !has_special(text)
}

fn has_special(text: &[u8]) -> bool
    ensures { result ≡ list_any needs_quotes text.now }
{
    text.iter().any(|byte| matches!(*byte, b' ' | b'\t' | b'"' | b'\r' | b'\n'))
}

/// Appends a text between quotes, or only its front where memory is refused.
fn append_quoted(out: &mut Vec<u8>, text: &[u8]) -> Result<(), OutOfMemory>
    ensures ok { OnOk result (out.new.items ≡ out.old.items ++ (34 ∷ flat_map escape_of text.now ++ 34 ∷ [])) }
    ensures err { OnErr result (take (vec_len out.old) out.new.items ≡ out.old.items) }
{
    out.push(b'"')?;
    for byte in text {
        append_escaped(out, *byte)?;
    }
    out.push(b'"')?;
    Ok(())
}

fn append_escaped(out: &mut Vec<u8>, byte: u8) -> Result<(), OutOfMemory>
    ensures ok { OnOk result (out.new.items ≡ out.old.items ++ escape_of byte) }
    ensures err { OnErr result (out.new.items ≡ out.old.items) }
{
    match byte {
        b'\\' => out.extend_from_slice(b"\\\\")?,
        b'"' => out.extend_from_slice(b"\\\"")?,
        b'\n' => out.extend_from_slice(b"\\n")?,
        b'\r' => out.extend_from_slice(b"\\r")?,
        b'\t' => out.extend_from_slice(b"\\t")?,
        _ => out.push(byte)?,
    }
    Ok(())
}
