//! The edge to the outside: a depot that files are fetched from, and a sink that bytes are put to.
//!
//! Each is a trait whose clauses say what a call gives and which counts of its account it raises, so that a caller above
//! is proved for every depot and sink at once. Two keep all in memory and fail where they are told to, and two read real
//! files and write to the standard output; these remember for a person why a call failed. It stands on the texts of the
//! base. Its one promise: an answer is what the outside gave, within the limit, and each failure is counted.
#![tactic(auto)]

mod counted_file;
mod counted_output;
mod depot;
mod file_depot;
mod memory_depot;
mod memory_sink;
mod sink;
mod std_sink;

pub use depot::{Depot, FetchFault};
pub use file_depot::{FetchCause, FetchFailure, FileDepot};
pub use memory_depot::MemoryDepot;
pub use memory_sink::MemorySink;
pub use sink::{PutFault, Sink};
pub use std_sink::StdSink;
