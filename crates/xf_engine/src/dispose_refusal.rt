//! Why a dimension is not disposed of.
use thiserror::Error;
use xf_base::OutOfMemory;

/// Why a dimension is not disposed of. A refusal changes nothing.
#[derive(Clone, Copy, Debug, PartialEq, Eq, Error)]
pub enum DisposeRefusal {
    /// No live dimension has this id.
    #[error("no dimension {id}")]
    NoDimension { id: u32 },
    /// Memory was refused.
    #[error("out of memory")]
    OutOfMemory,
}

impl From<OutOfMemory> for DisposeRefusal {
    ghost use Rattle.std.specs.Prelude.{◌≡◌};
    ghost use Rattle.xf_engine.specs.declared.dispose_refusal.DisposeRefusal.TheVariants.{OutOfMemory};

    ghost from_gives = { λ _ refusal. refusal ≡ OutOfMemory };

    fn from(_error: OutOfMemory) -> DisposeRefusal {
        DisposeRefusal::OutOfMemory
    }
}
