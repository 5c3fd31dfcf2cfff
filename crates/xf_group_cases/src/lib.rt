//! What no clause of reducers and groups says: worked values, written by hand.
//!
//! It stands on reducers and groups. It has tests, which cost a crate that it is proved once more, and a reducer of its own,
//! proved by the same laws as the stock. Its one promise: what the tables have is what reducers keep of their rows and what
//! groups tell of them.
#![tactic(auto)]

#[cfg(test)]
mod bounds;
#[cfg(test)]
mod evens;
#[cfg(test)]
mod folds;
#[cfg(test)]
mod groups;
pub mod own;
#[cfg(test)]
mod parts;
#[cfg(test)]
mod see;
