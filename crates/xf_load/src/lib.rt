//! CSV files as rows of a schema.
//!
//! It stands on xf_base, on the crate `csv` for the records of a file, and on the definitions of xf_model. Its one
//! promise: `records_of` gives exactly the rows that the format says, or the first refusal in the order of reading.
#![tactic(auto)]

mod cell;
mod load;
mod record_reader;
mod tags;

pub use cell::{CellRefusal, ReadCellFault, read_cell};
pub use load::{LoadRefusal, Loaded, records_of, records_within};
pub use record_reader::RecordReader;
