//! Keys as tables have them.
use std::alloc::Global;
use xf_base::{Atom, AtomForm, Key, KeyForm, OutOfMemory, Text};

pub(crate) const WHOLE: KeyForm = KeyForm::One(AtomForm::Fixed(0));

pub(crate) const TEXT: KeyForm = KeyForm::One(AtomForm::Text);

pub(crate) const TEXT_AND_CENTS: KeyForm = KeyForm::Pair(AtomForm::Text, AtomForm::Fixed(2));

/// A key as a table has it.
pub(crate) enum Told {
    Num(i64),
    Text(&'static str),
    Pair(&'static str, i64),
}

pub(crate) fn key_of(alloc: Global, told: &Told) -> Result<Key, OutOfMemory> {
    Ok(match told {
        Told::Num(number) => Key::Num(*number),
        Told::Text(text) => Key::Text(Text::of(alloc, text)?),
        Told::Pair(text, number) => {
            Key::Pair(Atom::Text(Text::of(alloc, text)?), Atom::Num(*number))
        }
    })
}
