//! Boards as texts: some that are read, one of them printed with all its parts, and some that are refused.
//!
//! It stands on boards and on the rules for their members. It has tests of what no clause says, which cost a crate that it is
//! proved once more, and calls whose worked answers are proved. Its one promise: the texts are those of the format, written by
//! hand. Each rule that a board may break is a case of tests/boards.py.
#![tactic(auto)]

#[cfg(test)]
mod boards;
pub mod worked;
