//! What no clause of the crates of accessors and filters says: worked values, written by hand and from outside.
//!
//! It stands on accessors and filters. It has tests, which cost a crate that it is proved once more, and some calls whose
//! worked values are proved. Its one promise: each public call of these two crates is made here, and gives what the tables
//! and the contracts have.
#![tactic(auto)]

#[cfg(test)]
mod access;
#[cfg(test)]
mod called;
#[cfg(test)]
mod filter;
#[cfg(test)]
mod see;
#[cfg(test)]
mod told;
pub mod worked;
