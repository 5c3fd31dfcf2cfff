//! CSV files as boards of their own: sheets, with columns of whole numbers and a row for each record.
//!
//! It stands on xf_base, on xf_load for the records and rows of a file, and on the crate `csv` for their fields. Its one
//! promise: `read_sheet` gives exactly the sheet that the format says, within the limits that are handed in, or the first
//! cause for which there is none.
#![tactic(auto)]

mod sheet;

pub use sheet::{Sheet, SheetRefusal, read_sheet};
