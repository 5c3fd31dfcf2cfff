//! Words that are read as keys.
use std::alloc::Global;
use std::test::Fail;
use xf_base::{Atom, AtomForm, Key, KeyForm, OutOfMemory, Text, key_of_word};

pub(super) const NUMBER: KeyForm = KeyForm::One(AtomForm::Fixed(1));

pub(super) const DATE: KeyForm = KeyForm::One(AtomForm::Date);

pub(super) const TEXT: KeyForm = KeyForm::One(AtomForm::Text);

pub(super) const DATE_AND_NUMBER: KeyForm = KeyForm::Pair(AtomForm::Date, AtomForm::Fixed(2));

const NUMBER_AND_TEXT: KeyForm = KeyForm::Pair(AtomForm::Fixed(0), AtomForm::Text);

pub(super) const TEXT_AND_DATE: KeyForm = KeyForm::Pair(AtomForm::Text, AtomForm::Date);

/// The key of a place in the tables.
pub(super) fn key_at(alloc: Global, place: usize) -> Result<Key, OutOfMemory> {
    let atom = |text| Ok::<Atom, OutOfMemory>(Atom::Text(Text::of(alloc, text)?));
    Ok(match place {
        0 => Key::Num(-5),
        1 => Key::Num(11_336),
        2 => Key::Num(2_932_897),
        3 => Key::Text(Text::of(alloc, "a|b")?),
        4 => Key::Text(Text::of(alloc, "")?),
        5 => Key::Pair(atom("a|b")?, Atom::Num(1)),
        6 => Key::Pair(Atom::Num(0), Atom::Num(-150)),
        7 => Key::Pair(Atom::Num(1), atom("b")?),
        8 => Key::Text(Text::of(alloc, "7")?),
        9 => Key::Text(Text::of(alloc, "2001-02-29")?),
        10 => Key::Text(Text::of(alloc, "1.25")?),
        _ => Key::Pair(atom("a")?, atom("\u{e9}|c")?),
    })
}

/// A form, a word, and the place of the key that it is.
static READ: [(KeyForm, &str, usize); 14] = [
    (NUMBER, "-.5", 0),
    (NUMBER, " -0.5 ", 0),
    (NUMBER, "1.25", 10),
    (DATE, "2001-01-14", 1),
    (DATE, "2001-02-29", 9),
    (TEXT, "7", 8),
    (TEXT, "a|b", 3),
    (NUMBER, "a|b", 3),
    (DATE, "", 4),
    (DATE_AND_NUMBER, "1970-01-01|-1.5", 6),
    (DATE_AND_NUMBER, "7", 8),
    (DATE_AND_NUMBER, "a|\u{e9}|c", 11),
    (TEXT_AND_DATE, "a|\u{e9}|c", 11),
    (NUMBER_AND_TEXT, "1|b", 7),
];

#[test]
fn reads_words(rt: HostRuntime) -> Result<(), Fail> {
    for (form, word, place) in &READ {
        let key = key_of_word(rt.alloc(), form, &Text::of(rt.alloc(), word)?)?;
        assert!(rt; key == key_at(rt.alloc(), *place)?, "at {word:?}");
    }
    Ok(())
}
