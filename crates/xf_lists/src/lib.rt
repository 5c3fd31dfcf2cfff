//! Lists of lists, kept flat: one vector of items, and one of where each list ends.
//!
//! A crossfilter keeps a short list for each record, of its keys in a dimension or of their places in a group. Kept
//! flat they take no allocation each. It stands on the marks of what is removed, of the base. Its one promise: the lists
//! are those that were pushed, without those that were removed.
#![tactic(auto)]

mod lists;

pub use lists::Lists;
