//! What no clause of the crates of values, files and tables says: worked values, written by hand and from outside.
//!
//! It stands on these crates, and has tests and some calls whose worked values are proved. The tests are not in the crates
//! themselves, since a crate that has tests is proved once more with them. Its one promise: each public call of these
//! crates is made here, and gives what the tables and the contracts have.
#![tactic(auto)]

#[cfg(test)]
mod base;
#[cfg(test)]
mod called;
#[cfg(test)]
mod load;
#[cfg(test)]
mod model;
#[cfg(test)]
mod outside;
#[cfg(test)]
mod see;
#[cfg(test)]
mod table;
pub mod worked;
