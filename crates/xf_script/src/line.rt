//! The words of a line: where each ends, and what it stands for between quotes.
ghost use Rattle.std.specs.Prelude.{◌≡◌, ◌≤◌, false, length, drop, option_map, IfOk, IfSome};
ghost use Rattle.std.specs.List.{prefix_len};
ghost use Rattle.xf_script.specs.Line.{apart, bare, escaped, is_apart, is_comment, is_space, quoted, skip_spaces, split_of, word_at, word_len};

use std::alloc::Global;
use xf_base::{OutOfMemory, Text, TextList};

/// The words of a line before the first malformed one, and whether there is one.
#[derive(Debug, Drop)]
pub struct Split {
    pub words: TextList,
    pub is_broken: bool,
}

/// The word with which a text begins, and what stands behind it.
#[derive(Drop)]
struct FirstWord<'a> {
    word: Text,
    rest: &'a str,
}

/// What stands between quotes, and how many bytes that takes with the closing quote.
#[derive(Drop)]
struct Quoted {
    word: Vec<u8>,
    length: usize,
}

/// Whether a line is a comment: its first byte that is neither a blank nor a tab is `#`.
pub fn is_comment(line: &str) -> bool
    ensures { result ≡ is_comment line.now }
{
    match skip_spaces(line).as_bytes().first() {
        Some(byte) => *byte == b'#',
        None => false,
    }
}

/// The words of a line.
pub fn split_line(alloc: Global, line: &str) -> Result<Split, OutOfMemory>
    ensures { IfOk result (λ split. record { words = split.words; is_broken = split.is_broken } ≡ split_of line.now) }
{
    let mut words = TextList::new(alloc);
    let mut rest = skip_spaces(line);
    while !rest.is_empty() {
        match first_word(alloc, rest) {
            Ok(Some(first)) => {
                words.push(first.word)?;
                rest = skip_spaces(first.rest);
            }
            Ok(None) => return Ok(Split {
                words,
                is_broken: true,
            }),
            Err(error) => return Err(error),
        }
    }
    Ok(Split {
        words,
        is_broken: false,
    })
}

/// The word with which a text begins; None where it is malformed.
fn first_word(alloc: Global, text: &str) -> Result<Option<FirstWord<'_>>, OutOfMemory>
    ensures { IfOk result (λ found. option_map (λ first. (first.word, first.rest.now)) found ≡ word_at text.now) }
{
    match text.as_bytes().first() {
        Some(b'"') => {
            let (_, quoted) = text.split_at(1);
            quoted_word(alloc, quoted)
        }
        Some(_) => bare_word(alloc, text),
        None => Ok(None),
    }
}

/// The word up to the next blank or tab.
#[tactic(auto, using(crate::proofs::Cuts::cut_word))]
fn bare_word(alloc: Global, text: &str) -> Result<Option<FirstWord<'_>>, OutOfMemory>
    ensures { IfOk result (λ found. option_map (λ first. (first.word, first.rest.now)) found ≡ bare text.now) }
{
    let (word, rest) = text.split_at(word_length(text.as_bytes()));
    if word.as_bytes().contains(&b'"') {
        return Ok(None);
    }
    Ok(Some(FirstWord {
        word: Text::of(alloc, word)?,
        rest,
    }))
}

/// The word whose opening quote stands before a text.
fn quoted_word(alloc: Global, text: &str) -> Result<Option<FirstWord<'_>>, OutOfMemory>
    ensures { IfOk result (λ found. option_map (λ first. (first.word, first.rest.now)) found ≡ apart (quoted false text.now)) }
{
    let Some(quoted) = unquoted(alloc, text.as_bytes())? else {
        return Ok(None);
    };
    let (_, rest) = text.split_at(quoted.length);
    if !is_apart(rest.as_bytes()) {
        return Ok(None);
    }
    match str::from_utf8(quoted.word.as_slice()) {
        Ok(word) => Ok(Some(FirstWord {
            word: Text::of(alloc, word)?,
            rest,
        })),
        Err(_) => unreachable!(),
    }
}

/// What stands between an opening quote, which stands before a text, and the closing one.
#[tactic(auto, using(crate::proofs::Cuts::quoting))]
fn unquoted(alloc: Global, text: &[u8]) -> Result<Option<Quoted>, OutOfMemory>
    ensures value { IfOk result (λ found. option_map (λ q. (q.word.items, drop q.length text.now)) found ≡ quoted false text.now) }
    ensures within { IfOk result (λ found. IfSome found (λ q. q.length ≤ length text.now)) }
{
    let mut word = Vec::with_capacity(alloc, text.len())?;
    let mut is_behind_backslash = false;
    for place in 0..text.len() {
        let byte = text[place];
        if is_behind_backslash {
            let Some(meant) = escaped(byte) else {
                return Ok(None);
            };
            word.push(meant)?;
            is_behind_backslash = false;
        } else if byte == b'"' {
            return Ok(Some(Quoted {
                word,
                length: place + 1,
            }));
        } else if byte == b'\\' {
            is_behind_backslash = true;
        } else {
            word.push(byte)?;
        }
    }
    Ok(None)
}

/// What a byte stands for behind a backslash between quotes.
fn escaped(byte: u8) -> Option<u8>
    ensures { result ≡ escaped byte }
{
    match byte {
        b'\\' => Some(b'\\'),
        b'"' => Some(b'"'),
        b'n' => Some(b'\n'),
        b'r' => Some(b'\r'),
        b't' => Some(b'\t'),
        _ => None,
    }
}

/// Whether a text is empty or begins with a blank or a tab.
fn is_apart(text: &[u8]) -> bool
    ensures { result ≡ is_apart text.now }
{
    match text.first() {
        Some(byte) => is_space(*byte),
        None => true,
    }
}

/// A text without the blanks and tabs in front.
#[tactic(auto, using(crate::proofs::Cuts::cut_spaces))]
fn skip_spaces(text: &str) -> &str
    ensures { result.now ≡ skip_spaces text.now }
{
    let (_, rest) = text.split_at(space_length(text.as_bytes()));
    rest
}

/// How many blanks and tabs stand in front.
fn space_length(text: &[u8]) -> usize
    ensures { result ≡ prefix_len is_space text.now }
{
    for (place, byte) in text.iter().enumerate() {
        if !is_space(*byte) {
            return place;
        }
    }
    text.len()
}

/// How many bytes stand before the next blank or tab.
fn word_length(text: &[u8]) -> usize
    ensures { result ≡ word_len text.now }
{
    for (place, byte) in text.iter().enumerate() {
        if is_space(*byte) {
            return place;
        }
    }
    text.len()
}

/// Whether a byte is a blank or a tab.
fn is_space(byte: u8) -> bool
    ensures { result ≡ is_space byte }
{
    byte == b' ' || byte == b'\t'
}
