//! Why records are not added.
use thiserror::Error;
use xf_base::OutOfMemory;
use xf_table::AppendRefusal;

/// Why records are not added to a crossfilter. The first that holds, in this order; a refusal changes nothing.
#[derive(Clone, Copy, Debug, PartialEq, Eq, Error)]
pub enum AddRefusal {
    /// There are so many records, and with so many more there would be more than the limit.
    #[error("too many records: {have} and {more} more, of at most {limit}")]
    TooManyRecords { have: u64, more: u64, limit: u64 },
    /// The records have so many bytes of text, and with so many more they would have more than the limit.
    #[error("too much text: {have} bytes and {more} more, of at most {limit}")]
    TooMuchText { have: u64, more: u64, limit: u64 },
    /// The record at `place`, from 0 on among those given, is not of the schema at this column, from 0 on.
    #[error("record {place} does not fit column {column}")]
    KindMismatch { place: u64, column: u64 },
    /// The dimensions have so many entries together, one for each key of each record, and with so many more they would
    /// have more than the limit.
    #[error("too many entries: {have} and {more} more, of at most {limit}")]
    TooManyEntries { have: u64, more: u64, limit: u64 },
    /// Memory was refused.
    #[error("out of memory")]
    OutOfMemory,
}

impl From<AppendRefusal> for AddRefusal {
    ghost use Rattle.std.specs.Prelude.{◌≡◌};
    ghost use Rattle.xf_engine.specs.Refusals.{as_add_refusal};

    ghost from_gives = { λ cause refusal. refusal ≡ as_add_refusal cause };

    fn from(cause: AppendRefusal) -> AddRefusal {
        match cause {
            AppendRefusal::TooManyRecords { have, more, limit } => {
                AddRefusal::TooManyRecords { have, more, limit }
            }
            AppendRefusal::TooMuchText { have, more, limit } => {
                AddRefusal::TooMuchText { have, more, limit }
            }
            AppendRefusal::KindMismatch { place, column } => {
                AddRefusal::KindMismatch { place, column }
            }
            AppendRefusal::OutOfMemory => AddRefusal::OutOfMemory,
        }
    }
}

impl From<OutOfMemory> for AddRefusal {
    ghost use Rattle.std.specs.Prelude.{◌≡◌};
    ghost use Rattle.xf_engine.specs.declared.add_refusal.AddRefusal.TheVariants.{OutOfMemory};

    ghost from_gives = { λ _ refusal. refusal ≡ OutOfMemory };

    fn from(_error: OutOfMemory) -> AddRefusal {
        AddRefusal::OutOfMemory
    }
}
