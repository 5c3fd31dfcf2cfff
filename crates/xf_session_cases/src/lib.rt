//! What no clause of the session says: lines in turn within low limits and what is written for each, by hand from the rules,
//! and what a session has of its board.
//!
//! It stands on boards, the session, replies and the outside. It has tests, which cost a crate that it is proved once more, and
//! some lines whose outcomes are proved for every session. Its one promise: each session of the tables gives exactly the text
//! beside it.
#![tactic(auto)]

#[cfg(test)]
mod boards;
#[cfg(test)]
mod called;
#[cfg(test)]
mod case;
#[cfg(test)]
mod limits;
pub mod worked;
