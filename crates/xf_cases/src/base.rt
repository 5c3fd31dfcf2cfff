//! How the texts of numbers, dates, keys and words are written and read, and what rows and schemas hold.
mod date;
mod form;
pub(crate) mod gone;
mod key;
mod number;
mod row;
mod steps;
mod written;
