//! Keys: what a dimension orders and filters records by.
ghost use Rattle.std.specs.Prelude.{◌≡◌, true, IfOk};
ghost use Rattle.xf_base.specs.Key.{IsPlainAtom, IsPlain};
ghost use Rattle.xf_base.specs.Kind.{kind_of_atom, kind_of_key};

use crate::kind::{AtomKind, KeyKind};
use crate::list_of::ListOf;
use crate::out_of_memory::OutOfMemory;
use crate::text::Text;
use std::alloc::Global;
use std::cmp::Ordering;

/// A part of a key.
#[derive(Debug, Drop)]
pub enum Atom {
    Num(i64),
    Text(Text),
}

/// A value of a dimension. Numbers come before texts and texts before pairs.
#[derive(Debug, Drop)]
pub enum Key {
    Num(i64),
    Text(Text),
    Pair(Atom, Atom),
}

/// Keys in order.
pub type KeyList = ListOf<Key>;

impl Atom {
    fn kind(&self) -> AtomKind
        ensures { result ≡ kind_of_atom self.now }
    {
        match self {
            Atom::Num(_) => AtomKind::Num,
            Atom::Text(_) => AtomKind::Text,
        }
    }

    /// The same part once more, with memory of its own.
    pub fn copy(&self, alloc: Global) -> Result<Atom, OutOfMemory>
        ensures { IfOk result (λ copy. copy ≡ self.now) }
    {
        Ok(match self {
            Atom::Num(number) => Atom::Num(*number),
            Atom::Text(text) => Atom::Text(text.copy(alloc)?),
        })
    }

    /// True of every part of a key: the clause tells a proof what each of them meets.
    fn is_plain(&self) -> bool
        ensures answer { result ≡ true }
        ensures plain { IsPlainAtom self.now }
    {
        match self {
            Atom::Num(number) => *number >= i64::MIN,
            Atom::Text(text) => text.as_str().len() < usize::MAX,
        }
    }
}

impl Key {
    /// Whether it is a number, a text, or a pair of what.
    pub fn kind(&self) -> KeyKind
        ensures { result ≡ kind_of_key self.now }
    {
        match self {
            Key::Num(_) => KeyKind::Num,
            Key::Text(_) => KeyKind::Text,
            Key::Pair(first, second) => KeyKind::Pair(first.kind(), second.kind()),
        }
    }

    /// The same key once more, with memory of its own.
    pub fn copy(&self, alloc: Global) -> Result<Key, OutOfMemory>
        ensures { IfOk result (λ copy. copy ≡ self.now) }
    {
        Ok(match self {
            Key::Num(number) => Key::Num(*number),
            Key::Text(text) => Key::Text(text.copy(alloc)?),
            Key::Pair(first, second) => Key::Pair(first.copy(alloc)?, second.copy(alloc)?),
        })
    }

    /// True of every key: the clause tells a proof what each key meets.
    pub fn is_plain(&self) -> bool
        ensures answer { result ≡ true }
        ensures plain { IsPlain self.now }
    {
        match self {
            Key::Num(number) => *number >= i64::MIN,
            Key::Text(text) => text.as_str().len() < usize::MAX,
            Key::Pair(first, second) => first.is_plain() && second.is_plain(),
        }
    }
}

impl PartialEq for Atom {
    ghost use Rattle.std.specs.Ordering.{eq_by_cmp};
    ghost use Rattle.std.specs.Cmp.{partial_equiv_from_equiv, eq_by_cmp_equiv};
    ghost use Rattle.xf_base.specs.Key.{atom_cmp};
    ghost use Rattle.xf_base.specs.KeyOrder.{atom_cmp_total};

    ghost eq = { eq_by_cmp atom_cmp };

    ghost laws = { partial_equiv_from_equiv (eq_by_cmp_equiv atom_cmp_total) };

    fn eq(&self, other: &Atom) -> bool {
        self.cmp(other).is_eq()
    }
}

impl Eq for Atom {
    ghost use Rattle.std.specs.Cmp.{eq_by_cmp_equiv};
    ghost use Rattle.xf_base.specs.KeyOrder.{atom_cmp_total};

    ghost laws = { eq_by_cmp_equiv atom_cmp_total };
}

impl PartialOrd for Atom {
    ghost use Rattle.std.specs.Ordering.{as_partial_cmp};
    ghost use Rattle.std.specs.Cmp.{partial_order_from_total};
    ghost use Rattle.xf_base.specs.Key.{atom_cmp};
    ghost use Rattle.xf_base.specs.KeyOrder.{atom_cmp_total};

    ghost partial_cmp = { as_partial_cmp atom_cmp };

    ghost laws = { partial_order_from_total atom_cmp_total };

    fn partial_cmp(&self, other: &Atom) -> Option<Ordering> {
        Some(self.cmp(other))
    }
}

impl Ord for Atom {
    ghost use Rattle.std.specs.Prelude.{refl};
    ghost use Rattle.xf_base.specs.Key.{atom_cmp};
    ghost use Rattle.xf_base.specs.KeyOrder.{atom_cmp_total};

    ghost cmp = { atom_cmp };

    ghost total = { atom_cmp_total };

    ghost matches_partial_cmp = { λ x y. refl };

    ghost matches_eq = { λ x y. refl };

    fn cmp(&self, other: &Atom) -> Ordering {
        match (self, other) {
            (Atom::Num(x), Atom::Num(y)) => x.cmp(y),
            (Atom::Num(_), Atom::Text(_)) => Ordering::Less,
            (Atom::Text(_), Atom::Num(_)) => Ordering::Greater,
            (Atom::Text(x), Atom::Text(y)) => x.cmp(y),
        }
    }
}

impl PartialEq for Key {
    ghost use Rattle.std.specs.Ordering.{eq_by_cmp};
    ghost use Rattle.std.specs.Cmp.{partial_equiv_from_equiv, eq_by_cmp_equiv};
    ghost use Rattle.xf_base.specs.Key.{key_cmp};
    ghost use Rattle.xf_base.specs.KeyOrder.{key_cmp_total};

    ghost eq = { eq_by_cmp key_cmp };

    ghost laws = { partial_equiv_from_equiv (eq_by_cmp_equiv key_cmp_total) };

    fn eq(&self, other: &Key) -> bool {
        self.cmp(other).is_eq()
    }
}

impl Eq for Key {
    ghost use Rattle.std.specs.Cmp.{eq_by_cmp_equiv};
    ghost use Rattle.xf_base.specs.KeyOrder.{key_cmp_total};

    ghost laws = { eq_by_cmp_equiv key_cmp_total };
}

impl PartialOrd for Key {
    ghost use Rattle.std.specs.Ordering.{as_partial_cmp};
    ghost use Rattle.std.specs.Cmp.{partial_order_from_total};
    ghost use Rattle.xf_base.specs.Key.{key_cmp};
    ghost use Rattle.xf_base.specs.KeyOrder.{key_cmp_total};

    ghost partial_cmp = { as_partial_cmp key_cmp };

    ghost laws = { partial_order_from_total key_cmp_total };

    fn partial_cmp(&self, other: &Key) -> Option<Ordering> {
        Some(self.cmp(other))
    }
}

impl Ord for Key {
    ghost use Rattle.std.specs.Prelude.{refl};
    ghost use Rattle.xf_base.specs.Key.{key_cmp};
    ghost use Rattle.xf_base.specs.KeyOrder.{key_cmp_total};

    ghost cmp = { key_cmp };

    ghost total = { key_cmp_total };

    ghost matches_partial_cmp = { λ x y. refl };

    ghost matches_eq = { λ x y. refl };

    fn cmp(&self, other: &Key) -> Ordering {
        match (self, other) {
            (Key::Num(x), Key::Num(y)) => x.cmp(y),
            (Key::Num(_), _) => Ordering::Less,
            (Key::Text(_), Key::Num(_)) => Ordering::Greater,
            (Key::Text(x), Key::Text(y)) => x.cmp(y),
            (Key::Text(_), Key::Pair(_, _)) => Ordering::Less,
            (Key::Pair(x, u), Key::Pair(y, v)) => match x.cmp(y) {
                Ordering::Equal => u.cmp(v),
                decided => decided,
            },
            (Key::Pair(_, _), _) => Ordering::Greater,
        }
    }
}
