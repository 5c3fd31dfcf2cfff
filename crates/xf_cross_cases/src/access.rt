//! The stock on values from outside.
mod accessors;
mod roundings;
