//! Why a text is no board, and where.
ghost use Rattle.std.specs.Prelude.{◌≡◌};

use std::alloc::{AllocError, AllocFailed};
use thiserror::Error;
use xf_base::{OutOfMemory, Text};

/// Why a text is no board: the first rule that it breaks. A path is `/` and the name of a member or the number of an element
/// from 0, level by level.
#[derive(Debug, Drop, Error)]
pub enum BoardRefusal {
    /// The text is no JSON, or no object.
    #[error("syntax")]
    Syntax,
    /// The version is another number than 1.
    #[error("version {found}")]
    Version { found: u64 },
    /// The object has no such member.
    #[error("unknown")]
    Unknown { path: Text },
    /// The member or element is wanting, of another sort, out of its range, or does not fit.
    #[error("field")]
    Field { path: Text },
    /// The name is not declared, or declared for the second time.
    #[error("name")]
    Name { path: Text, name: Text },
    /// The array has more elements than its limit.
    #[error("limit {limit}")]
    Limit { path: Text, limit: u64 },
    /// Memory was refused, or the text has more values than are read.
    #[error("out of memory")]
    OutOfMemory,
}

impl From<OutOfMemory> for BoardRefusal {
    ghost use Rattle.xf_members.specs.declared.board_refusal.BoardRefusal.TheVariants.{OutOfMemory};

    ghost from_gives = { λ _ e. e ≡ OutOfMemory };

    fn from(_error: OutOfMemory) -> BoardRefusal {
        BoardRefusal::OutOfMemory
    }
}

impl From<AllocError> for BoardRefusal {
    ghost use Rattle.xf_members.specs.declared.board_refusal.BoardRefusal.TheVariants.{OutOfMemory};

    ghost from_gives = { λ _ e. e ≡ OutOfMemory };

    fn from(_error: AllocError) -> BoardRefusal {
        BoardRefusal::OutOfMemory
    }
}

impl<T: Drop> From<AllocFailed<T>> for BoardRefusal {
    ghost use Rattle.xf_members.specs.declared.board_refusal.BoardRefusal.TheVariants.{OutOfMemory};

    ghost from_gives = { λ _ e. e ≡ OutOfMemory };

    fn from(_error: AllocFailed<T>) -> BoardRefusal {
        BoardRefusal::OutOfMemory
    }
}
