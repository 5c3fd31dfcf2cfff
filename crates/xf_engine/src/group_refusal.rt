//! Why a group is not added, or not told.
use std::alloc::AllocFailed;
use thiserror::Error;
use xf_base::OutOfMemory;

/// Why a group is not added. The first that holds, in this order; a refusal changes nothing.
#[derive(Clone, Copy, Debug, PartialEq, Eq, Error)]
pub enum GroupRefusal {
    /// No live dimension has this id.
    #[error("no dimension {id}")]
    NoDimension { id: u32 },
    /// So many groups and wholes are live already.
    #[error("too many groups, of at most {limit}")]
    TooManyGroups { limit: u64 },
    /// Memory was refused.
    #[error("out of memory")]
    OutOfMemory,
}

impl<T: Drop> From<AllocFailed<T>> for GroupRefusal {
    ghost use Rattle.std.specs.Prelude.{◌≡◌};
    ghost use Rattle.xf_engine.specs.declared.group_refusal.GroupRefusal.TheVariants.{OutOfMemory};

    ghost from_gives = { λ _ refusal. refusal ≡ OutOfMemory };

    fn from(_error: AllocFailed<T>) -> GroupRefusal {
        GroupRefusal::OutOfMemory
    }
}

impl From<OutOfMemory> for GroupRefusal {
    ghost use Rattle.std.specs.Prelude.{◌≡◌};
    ghost use Rattle.xf_engine.specs.declared.group_refusal.GroupRefusal.TheVariants.{OutOfMemory};

    ghost from_gives = { λ _ refusal. refusal ≡ OutOfMemory };

    fn from(_error: OutOfMemory) -> GroupRefusal {
        GroupRefusal::OutOfMemory
    }
}

/// Why the entries of a group are not told.
#[derive(Clone, Copy, Debug, PartialEq, Eq, Error)]
pub enum GroupListRefusal {
    /// No live group has this id.
    #[error("no group {id}")]
    NoGroup { id: u32 },
    /// Memory was refused.
    #[error("out of memory")]
    OutOfMemory,
}

impl From<OutOfMemory> for GroupListRefusal {
    ghost use Rattle.std.specs.Prelude.{◌≡◌};
    ghost use Rattle.xf_engine.specs.declared.group_refusal.GroupListRefusal.TheVariants.{OutOfMemory};

    ghost from_gives = { λ _ refusal. refusal ≡ OutOfMemory };

    fn from(_error: OutOfMemory) -> GroupListRefusal {
        GroupListRefusal::OutOfMemory
    }
}
