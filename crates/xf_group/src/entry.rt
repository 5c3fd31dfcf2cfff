//! A key of a group with its value.
use xf_base::Key;

/// A key with its value.
#[derive(Drop)]
pub struct Entry<V> {
    pub key: Key,
    pub value: V,
}

/// A key with its value, lent.
#[derive(Drop)]
pub struct GroupEntry<'a, V> {
    pub key: &'a Key,
    pub value: &'a V,
}
