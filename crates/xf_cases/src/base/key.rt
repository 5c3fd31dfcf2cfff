//! The order and the kinds of keys.
use std::alloc::Global;
use std::cmp::Ordering;
use std::test::Fail;
use xf_base::{Atom, AtomForm, AtomKind, Key, KeyForm, KeyKind, OutOfMemory, Text};

/// The key whose order stands at this place of the table below.
fn key_at(alloc: Global, place: usize) -> Result<Key, OutOfMemory> {
    let text = |text| Text::of(alloc, text);
    Ok(match place {
        0 => Key::Num(i64::MIN),
        1 => Key::Num(-1),
        2 => Key::Num(3),
        3 => Key::Text(text("")?),
        4 => Key::Text(text("Z")?),
        5 => Key::Text(text("a")?),
        6 => Key::Text(text("ab")?),
        7 => Key::Pair(Atom::Num(9), Atom::Text(text("a")?)),
        8 => Key::Pair(Atom::Text(text("a")?), Atom::Num(1)),
        9 => Key::Pair(Atom::Text(text("a")?), Atom::Num(2)),
        _ => Key::Pair(Atom::Text(text("a")?), Atom::Text(text("")?)),
    })
}

/// For each place a form of keys of that key's kind, and the kind.
static KINDS: [(KeyForm, KeyKind); 11] = [
    (KeyForm::One(AtomForm::Fixed(2)), KeyKind::Num),
    (KeyForm::One(AtomForm::Date), KeyKind::Num),
    (KeyForm::One(AtomForm::Fixed(0)), KeyKind::Num),
    (KeyForm::One(AtomForm::Text), KeyKind::Text),
    (KeyForm::One(AtomForm::Text), KeyKind::Text),
    (KeyForm::One(AtomForm::Text), KeyKind::Text),
    (KeyForm::One(AtomForm::Text), KeyKind::Text),
    (
        KeyForm::Pair(AtomForm::Date, AtomForm::Text),
        KeyKind::Pair(AtomKind::Num, AtomKind::Text),
    ),
    (
        KeyForm::Pair(AtomForm::Text, AtomForm::Fixed(0)),
        KeyKind::Pair(AtomKind::Text, AtomKind::Num),
    ),
    (
        KeyForm::Pair(AtomForm::Text, AtomForm::Date),
        KeyKind::Pair(AtomKind::Text, AtomKind::Num),
    ),
    (
        KeyForm::Pair(AtomForm::Text, AtomForm::Text),
        KeyKind::Pair(AtomKind::Text, AtomKind::Text),
    ),
];

#[test]
fn keys_have_kinds_and_an_order(rt: HostRuntime) -> Result<(), Fail> {
    for (i, (form, kind)) in KINDS.iter().enumerate() {
        let key = key_at(rt.alloc(), i)?;
        assert!(rt; key.is_plain());
        assert!(rt; key.kind() == *kind && form.kind() == *kind, "at {i}");
        for j in 0..11_usize {
            let other = key_at(rt.alloc(), j)?.copy(rt.alloc())?;
            let is_ordered = key.cmp(&other) == i.cmp(&j);
            let is_same = (key == other) == (i == j) && (key < other) == (i < j);
            assert!(rt; is_ordered && is_same, "at {i} and {j}");
        }
    }
    let text = Text::of(rt.alloc(), "a")?;
    assert!(rt; text == text.copy(rt.alloc())?);
    assert_eq!(rt; Atom::Num(7).cmp(&Atom::Text(text)), Ordering::Less);
    assert!(rt; AtomForm::Date.kind() == AtomKind::Num);
    Ok(())
}
