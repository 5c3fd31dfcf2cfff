//! Forms of keys: how they are written and read.
ghost use Rattle.std.specs.Prelude.{◌≡◌, ◌==◌, ◌∷◌, ◌++◌, take, vec_len, is_some, IfSome, IfOk, OnOk, OnErr, IsUtf8};
ghost use Rattle.std.specs.List.{list_any, before_first, after_first};
ghost use Rattle.xf_base.specs.Key.{IsPlain};
ghost use Rattle.xf_base.specs.Kind.{kind_of_atom_form, kind_of_key_form};
ghost use Rattle.xf_base.specs.Form.{number_text, atom_text, form_of_one, form_of_first, form_of_second, key_text, number_under, atom_of_word, key_of_word};

use crate::date::{put_date, read_date};
use crate::fixed::{put_fixed, read_fixed};
use crate::key::{Atom, Key};
use crate::kind::{AtomKind, KeyKind};
use crate::out_of_memory::OutOfMemory;
use crate::text::Text;
use std::alloc::Global;

/// How a part of a key is written.
#[derive(Clone, Copy, Debug, PartialEq, Eq)]
pub enum AtomForm {
    /// A number of units of the last of so many decimals.
    Fixed(u8),
    /// A day from 1970-01-01 on, as `YYYY-MM-DD`.
    Date,
    Text,
}

/// How a key is written; a pair with `|` between its parts.
#[derive(Clone, Copy, Debug, PartialEq, Eq)]
pub enum KeyForm {
    One(AtomForm),
    Pair(AtomForm, AtomForm),
}

impl AtomForm {
    /// The kind of the parts that are written so: `Fixed` and `Date` are numbers.
    pub fn kind(&self) -> AtomKind
        ensures { result ≡ kind_of_atom_form self.now }
    {
        match self {
            AtomForm::Fixed(_) | AtomForm::Date => AtomKind::Num,
            AtomForm::Text => AtomKind::Text,
        }
    }
}

impl KeyForm {
    /// The kind of the keys that are written so.
    pub fn kind(&self) -> KeyKind
        ensures { result ≡ kind_of_key_form self.now }
    {
        match self {
            KeyForm::One(form) => match form.kind() {
                AtomKind::Num => KeyKind::Num,
                AtomKind::Text => KeyKind::Text,
            },
            KeyForm::Pair(first, second) => KeyKind::Pair(first.kind(), second.kind()),
        }
    }

    /// The form of a key that is one part.
    fn of_one(&self) -> AtomForm
        ensures { result ≡ form_of_one self.now }
    {
        match self {
            KeyForm::One(form) => *form,
            KeyForm::Pair(_, _) => AtomForm::Text,
        }
    }

    /// The forms of the parts of a pair.
    fn of_pair(&self) -> (AtomForm, AtomForm)
        ensures first { result.0 ≡ form_of_first self.now }
        ensures second { result.1 ≡ form_of_second self.now }
    {
        match self {
            KeyForm::One(_) => (AtomForm::Text, AtomForm::Text),
            KeyForm::Pair(first, second) => (*first, *second),
        }
    }
}

/// Appends a key as its form says: a number by its decimals or as a date, a text as its bytes, a pair with `|`
/// between its parts. Where a number meets the form of a text, or the key's shape differs from the form's, a number
/// is written as a whole number.
pub fn put_key(out: &mut Vec<u8>, form: &KeyForm, key: &Key) -> Result<(), OutOfMemory>
    ensures ok { OnOk result (out.new.items ≡ out.old.items ++ key_text form.now key.now) }
    ensures err { OnErr result (out.new.items ≡ out.old.items) }
    ensures utf8 { IsPlain key.now → IsUtf8 (key_text form.now key.now) }
{
    match key {
        Key::Num(number) => put_number_as(out, form.of_one(), *number),
        Key::Text(text) => {
            out.extend_from_slice(text.as_str().as_bytes())?;
            Ok(())
        }
        Key::Pair(first, second) => {
            let start = out.len();
            let appended = append_pair(out, form.of_pair(), first, second);
            if appended.is_err() {
                out.truncate(start);
            }
            appended
        }
    }
}

/// Appends a pair, or only its front where memory is refused.
fn append_pair(
    out: &mut Vec<u8>,
    forms: (AtomForm, AtomForm),
    first: &Atom,
    second: &Atom,
) -> Result<(), OutOfMemory>
    ensures ok { OnOk result (out.new.items ≡ out.old.items ++ (atom_text forms.0 first.now ++ 124 ∷ atom_text forms.1 second.now)) }
    ensures err { OnErr result (take (vec_len out.old) out.new.items ≡ out.old.items) }
{
    put_atom(out, forms.0, first)?;
    out.push(b'|')?;
    put_atom(out, forms.1, second)
}

fn put_atom(out: &mut Vec<u8>, form: AtomForm, atom: &Atom) -> Result<(), OutOfMemory>
    ensures ok { OnOk result (out.new.items ≡ out.old.items ++ atom_text form atom.now) }
    ensures err { OnErr result (out.new.items ≡ out.old.items) }
{
    match atom {
        Atom::Num(number) => put_number_as(out, form, *number),
        Atom::Text(text) => {
            out.extend_from_slice(text.as_str().as_bytes())?;
            Ok(())
        }
    }
}

fn put_number_as(out: &mut Vec<u8>, form: AtomForm, number: i64) -> Result<(), OutOfMemory>
    ensures ok { OnOk result (out.new.items ≡ out.old.items ++ number_text form number) }
    ensures err { OnErr result (out.new.items ≡ out.old.items) }
{
    match form {
        AtomForm::Fixed(decimals) => put_fixed(out, i128::from(number), decimals),
        AtomForm::Date => put_date(out, number),
        AtomForm::Text => put_fixed(out, i128::from(number), 0),
    }
}

/// The key that a word names under a form: a number where the form is of numbers or dates and the word reads as one,
/// else a text. Under the form of a pair the word is cut at its first `|`; a word without one is a text.
pub fn key_of_word(alloc: Global, form: &KeyForm, word: &Text) -> Result<Key, OutOfMemory>
    ensures { IfOk result (λ key. key ≡ key_of_word form.now word.now) }
{
    match form {
        KeyForm::One(form) => Ok(match atom_of_word(alloc, *form, word.as_str())? {
            Atom::Num(number) => Key::Num(number),
            Atom::Text(text) => Key::Text(text),
        }),
        KeyForm::Pair(first, second) => match split_at_bar(word.as_str()) {
            Some((front, back)) => Ok(Key::Pair(
                atom_of_word(alloc, *first, front)?,
                atom_of_word(alloc, *second, back)?,
            )),
            None => Ok(Key::Text(word.copy(alloc)?)),
        },
    }
}

/// What stands before the first `|` and what stands after it; None where a word has none.
#[tactic(auto, using(crate::proofs::Words::bars))]
fn split_at_bar(word: &str) -> Option<(&str, &str)>
    ensures bar { is_some result ≡ list_any (λ b. b == 124) word.now }
    ensures first { IfSome result (λ parts. parts.0.now ≡ before_first (λ b. b == 124) word.now) }
    ensures second { IfSome result (λ parts. parts.1.now ≡ after_first (λ b. b == 124) word.now) }
{
    word.split_once('|')
}

fn atom_of_word(alloc: Global, form: AtomForm, word: &str) -> Result<Atom, OutOfMemory>
    ensures { IfOk result (λ atom. atom ≡ atom_of_word form word.now) }
{
    Ok(match number_under(form, word) {
        Some(number) => Atom::Num(number),
        None => Atom::Text(Text::of(alloc, word)?),
    })
}

/// The number that a word writes under a form, where it writes one.
fn number_under(form: AtomForm, word: &str) -> Option<i64>
    ensures { result ≡ number_under form word.now }
{
    match form {
        AtomForm::Fixed(decimals) => read_fixed(word.as_bytes(), decimals).ok(),
        AtomForm::Date => read_date(word.as_bytes()).ok(),
        AtomForm::Text => None,
    }
}
