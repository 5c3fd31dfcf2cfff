//! The program over a depot, a sink and a counter: words, a board, a session, and what is written for them.
//!
//! It stands on the session and on the outside. Its private modules are the layers that a run passes: `words`, `start`,
//! `lines`, `page`, `replay`, `output`, `program`. Its one promise is the headline on `run`: what is written after each accepted
//! line is what recomputing from the records and filters gives.
#![tactic(auto)]

mod lines;
mod output;
mod page;
mod program;
mod replay;
mod start;
mod status;
mod words;

pub use program::run;
pub use status::Status;
