//! The entries of a group.
use xf_base::Key;

/// A key of a group, with the number of a field of its value.
#[derive(Debug, Drop)]
pub struct KeyNumber {
    pub key: Key,
    pub number: i128,
}
