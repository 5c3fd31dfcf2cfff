//! What a crossfilter means, over plain lists: which rows are selected, the entries of a group, what a filter moves.
//!
//! Every crate above cites these definitions and none states them again. They are written over functions (the keys
//! of a row, whether a filter holds for a key, the step of a fold), so that any accessor, filter and reducer is an
//! instance of them. The functions here are plain and slow, and compute exactly what the definitions say of rows
//! of numbers; tests hold them against worked examples. `laws` has what holds of every instance. The crate stands on
//! std alone.
#![tactic(auto)]

mod ascending;
mod bottom;
mod dimension;
mod group;
pub mod laws;
mod movement;

pub use bottom::{plain_bottom, plain_top};
pub use dimension::{PlainDimension, PlainRange, passes_each, selected};
pub use group::{PlainEntry, distinct_keys, group_entries, whole_count};
pub use movement::moved;
