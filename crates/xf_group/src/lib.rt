//! Groups: the keys of records, each with the value that a reducer keeps of the records that have it.
//!
//! A group knows for each record its keys, as positions among the group's own, so that a record that comes or goes
//! changes the values of its keys alone. It stands on reducers, on keys, and on lists kept flat. Its one promise: the
//! keys ascend and are those that some record has, each has one value, and a record that comes or goes changes each of
//! its keys' values once and no other.
#![tactic(auto)]

mod admit;
mod entry;
mod group;
mod order;
mod ready;
mod search;
mod unused;

pub use entry::{Entry, GroupEntry};
pub use group::Group;
pub use order::GroupOrder;
