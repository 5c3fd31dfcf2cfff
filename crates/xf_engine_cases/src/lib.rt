//! What no clause of the crossfilter says: worked values, written by hand and from outside.
//!
//! It stands on accessors, filters, reducers, groups and the crossfilter. It has tests, which cost a crate that it is proved
//! once more, and an accessor, a rounding, a predicate and a reducer of its own, proved by the same laws as the stock. Its
//! one promise: what the tables have is what the crossfilter gives.
#![tactic(auto)]

#[cfg(test)]
mod engine;
#[cfg(test)]
mod lengths;
#[cfg(test)]
mod named;
pub mod own;
#[cfg(test)]
mod see;
#[cfg(test)]
mod told;
