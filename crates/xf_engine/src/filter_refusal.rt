//! Why a filter is not set.
use thiserror::Error;
use xf_base::{KeyKind, OutOfMemory};

/// Why a filter is not set on a dimension. A refusal changes nothing.
#[derive(Clone, Copy, Debug, PartialEq, Eq, Error)]
pub enum FilterRefusal {
    /// No live dimension has this id.
    #[error("no dimension {id}")]
    NoDimension { id: u32 },
    /// The keys of the dimension are of the wanted kind, and the first key in the filter that is of another is of the
    /// given kind.
    #[error("wrong kind")]
    WrongKind { wanted: KeyKind, given: KeyKind },
    /// Memory was refused.
    #[error("out of memory")]
    OutOfMemory,
}

impl From<OutOfMemory> for FilterRefusal {
    ghost use Rattle.std.specs.Prelude.{◌≡◌};
    ghost use Rattle.xf_engine.specs.declared.filter_refusal.FilterRefusal.TheVariants.{OutOfMemory};

    ghost from_gives = { λ _ refusal. refusal ≡ OutOfMemory };

    fn from(_error: OutOfMemory) -> FilterRefusal {
        FilterRefusal::OutOfMemory
    }
}
