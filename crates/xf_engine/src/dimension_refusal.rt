//! Why a dimension is not added.
use std::alloc::AllocFailed;
use thiserror::Error;
use xf_base::OutOfMemory;

/// Why a dimension is not added. The first that holds, in this order; a refusal changes nothing.
#[derive(Clone, Copy, Debug, PartialEq, Eq, Error)]
pub enum DimensionRefusal {
    /// So many dimensions are live already.
    #[error("too many dimensions, of at most {limit}")]
    TooManyDimensions { limit: u64 },
    /// The dimensions have so many entries together, one for each key of each record, and the new one would bring so many
    /// more, above the limit.
    #[error("too many entries: {have} and {more} more, of at most {limit}")]
    TooManyEntries { have: u64, more: u64, limit: u64 },
    /// Memory was refused.
    #[error("out of memory")]
    OutOfMemory,
}

impl From<OutOfMemory> for DimensionRefusal {
    ghost use Rattle.std.specs.Prelude.{◌≡◌};
    ghost use Rattle.xf_engine.specs.declared.dimension_refusal.DimensionRefusal.TheVariants.{OutOfMemory};

    ghost from_gives = { λ _ refusal. refusal ≡ OutOfMemory };

    fn from(_error: OutOfMemory) -> DimensionRefusal {
        DimensionRefusal::OutOfMemory
    }
}

impl<T: Drop> From<AllocFailed<T>> for DimensionRefusal {
    ghost use Rattle.std.specs.Prelude.{◌≡◌};
    ghost use Rattle.xf_engine.specs.declared.dimension_refusal.DimensionRefusal.TheVariants.{OutOfMemory};

    ghost from_gives = { λ _ refusal. refusal ≡ OutOfMemory };

    fn from(_error: AllocFailed<T>) -> DimensionRefusal {
        DimensionRefusal::OutOfMemory
    }
}
