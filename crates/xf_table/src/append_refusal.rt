//! Why rows are not appended.
use thiserror::Error;

/// Why rows are not appended to a table. The first that holds, in this order; a refusal drops the rows and changes
/// nothing.
#[derive(Clone, Copy, Debug, PartialEq, Eq, Error)]
pub enum AppendRefusal {
    /// The table has so many records, and with so many more it would have more than the limit.
    #[error("too many records: {have} and {more} more, of at most {limit}")]
    TooManyRecords { have: u64, more: u64, limit: u64 },
    /// The table has so many bytes of text, and with so many more it would have more than the limit.
    #[error("too much text: {have} bytes and {more} more, of at most {limit}")]
    TooMuchText { have: u64, more: u64, limit: u64 },
    /// The row at this place, from 0 on among those given, is the first that is not of the schema: its cell in this
    /// column, from 0 on, is missing or is none of the column; at the number of columns it has more cells.
    #[error("the row at {place} does not fit column {column}")]
    KindMismatch { place: u64, column: u64 },
    /// Memory was refused.
    #[error("out of memory")]
    OutOfMemory,
}

impl From<xf_base::OutOfMemory> for AppendRefusal {
    ghost use Rattle.std.specs.Prelude.{◌≡◌};
    ghost use Rattle.xf_table.specs.declared.append_refusal.AppendRefusal.TheVariants.{OutOfMemory};

    ghost from_gives = { λ _ refusal. refusal ≡ OutOfMemory };

    fn from(_error: xf_base::OutOfMemory) -> AppendRefusal {
        AppendRefusal::OutOfMemory
    }
}
