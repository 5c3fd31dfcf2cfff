//! Why a whole is not added.
use std::alloc::AllocFailed;
use thiserror::Error;
use xf_base::OutOfMemory;

/// Why a whole is not added. A refusal changes nothing.
#[derive(Clone, Copy, Debug, PartialEq, Eq, Error)]
pub enum WholeRefusal {
    /// So many groups and wholes are live already.
    #[error("too many groups, of at most {limit}")]
    TooManyGroups { limit: u64 },
    /// Memory was refused.
    #[error("out of memory")]
    OutOfMemory,
}

impl<T: Drop> From<AllocFailed<T>> for WholeRefusal {
    ghost use Rattle.std.specs.Prelude.{◌≡◌};
    ghost use Rattle.xf_engine.specs.declared.whole_refusal.WholeRefusal.TheVariants.{OutOfMemory};

    ghost from_gives = { λ _ refusal. refusal ≡ OutOfMemory };

    fn from(_error: AllocFailed<T>) -> WholeRefusal {
        WholeRefusal::OutOfMemory
    }
}

impl From<OutOfMemory> for WholeRefusal {
    ghost use Rattle.std.specs.Prelude.{◌≡◌};
    ghost use Rattle.xf_engine.specs.declared.whole_refusal.WholeRefusal.TheVariants.{OutOfMemory};

    ghost from_gives = { λ _ refusal. refusal ≡ OutOfMemory };

    fn from(_error: OutOfMemory) -> WholeRefusal {
        WholeRefusal::OutOfMemory
    }
}
