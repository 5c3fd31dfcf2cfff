//! Kinds of keys: which are ordered and filtered alike.

/// The kind of a part of a key.
#[derive(Clone, Copy, Debug, PartialEq, Eq)]
pub enum AtomKind {
    Num,
    Text,
}

/// The kind of a key. The keys of one dimension are of one kind.
#[derive(Clone, Copy, Debug, PartialEq, Eq)]
pub enum KeyKind {
    Num,
    Text,
    Pair(AtomKind, AtomKind),
}
