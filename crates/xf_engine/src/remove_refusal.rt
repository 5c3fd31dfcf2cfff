//! Why records are not removed.
use crate::filter_refusal::FilterRefusal;
use thiserror::Error;
use xf_base::{KeyKind, OutOfMemory};

/// Why the records that pass a dimension under a filter are not removed. A refusal changes nothing.
#[derive(Clone, Copy, Debug, PartialEq, Eq, Error)]
pub enum RemoveRefusal {
    /// No live dimension has this id.
    #[error("no dimension {id}")]
    NoDimension { id: u32 },
    /// The keys of the dimension are of the wanted kind, and the first key in the filter that is of another is of the
    /// given kind.
    #[error("wrong kind")]
    WrongKind { wanted: KeyKind, given: KeyKind },
    /// Memory was refused.
    #[error("out of memory")]
    OutOfMemory,
}

impl From<FilterRefusal> for RemoveRefusal {
    ghost use Rattle.std.specs.Prelude.{◌≡◌};
    ghost use Rattle.xf_engine.specs.Refusals.{as_remove_refusal};

    ghost from_gives = { λ cause refusal. refusal ≡ as_remove_refusal cause };

    fn from(cause: FilterRefusal) -> RemoveRefusal {
        match cause {
            FilterRefusal::NoDimension { id } => RemoveRefusal::NoDimension { id },
            FilterRefusal::WrongKind { wanted, given } => {
                RemoveRefusal::WrongKind { wanted, given }
            }
            FilterRefusal::OutOfMemory => RemoveRefusal::OutOfMemory,
        }
    }
}

impl From<OutOfMemory> for RemoveRefusal {
    ghost use Rattle.std.specs.Prelude.{◌≡◌};
    ghost use Rattle.xf_engine.specs.declared.remove_refusal.RemoveRefusal.TheVariants.{OutOfMemory};

    ghost from_gives = { λ _ refusal. refusal ≡ OutOfMemory };

    fn from(_error: OutOfMemory) -> RemoveRefusal {
        RemoveRefusal::OutOfMemory
    }
}
