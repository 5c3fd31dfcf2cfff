//! Worked values of the lines and the replies of a session, written by hand from the rules.
//!
//! It stands on the script and on replies. It has tests of what no clause says, which cost a crate that it is proved once
//! more, and calls whose worked answers are proved. Its one promise: each public call of these two crates is made here, and
//! gives what the tables and the clauses have.
#![tactic(auto)]

#[cfg(test)]
mod lines;
#[cfg(test)]
mod replies;
#[cfg(test)]
mod see;
pub mod worked;
