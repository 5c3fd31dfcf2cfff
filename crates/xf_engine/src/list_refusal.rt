//! Why the rows of a dimension are not listed.
use thiserror::Error;
use xf_base::OutOfMemory;

/// Why the rows with the least or the greatest keys are not listed.
#[derive(Clone, Copy, Debug, PartialEq, Eq, Error)]
pub enum ListRefusal {
    /// No live dimension has this id.
    #[error("no dimension {id}")]
    NoDimension { id: u32 },
    /// Memory was refused.
    #[error("out of memory")]
    OutOfMemory,
}

impl From<OutOfMemory> for ListRefusal {
    ghost use Rattle.std.specs.Prelude.{◌≡◌};
    ghost use Rattle.xf_engine.specs.declared.list_refusal.ListRefusal.TheVariants.{OutOfMemory};

    ghost from_gives = { λ _ refusal. refusal ≡ OutOfMemory };

    fn from(_error: OutOfMemory) -> ListRefusal {
        ListRefusal::OutOfMemory
    }
}
