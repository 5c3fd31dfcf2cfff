//! A depot: where files are fetched from by their names.
ghost use Rattle.std.specs.Prelude.{◌≡◌, ◌+◌, ◌<◌, ◌≤◌, length, IfOk, IfSome, IsSomeAnd, IsErrOf};
ghost use Rattle.std.specs.FinMap as map;
ghost use Rattle.xf_outside.specs.Account.{DepotAccount};
ghost use Rattle.xf_outside.specs.Count.{FaultsAfterFetch, MissesAfterFetch, Rose};

use std::alloc::{AllocError, Global};
use thiserror::Error;

/// Why a file was not fetched.
#[derive(Clone, Copy, Debug, PartialEq, Eq, Error)]
pub enum FetchFault {
    /// There is no file of this name.
    #[error("there is no such file")]
    Absent,
    /// The file has more bytes than the limit.
    #[error("the file is too long")]
    TooLong,
    /// The outside failed, at the opening or in mid-stream. The next call may succeed.
    #[error("reading failed")]
    Failed,
    /// Memory was refused for the bytes.
    #[error("out of memory")]
    OutOfMemory,
}

impl From<AllocError> for FetchFault {
    ghost use Rattle.std.specs.Prelude.{◌≡◌};
    ghost use Rattle.xf_outside.specs.declared.depot.FetchFault.TheVariants.{OutOfMemory};

    ghost from_gives = { λ _ e. e ≡ OutOfMemory };

    fn from(_error: AllocError) -> FetchFault {
        FetchFault::OutOfMemory
    }
}

/// Where files are fetched from. Nothing that is called here changes a file.
pub trait Depot {
    /// What the depot tells of itself: its files, and what it counted.
    ghost account: { Self → DepotAccount };

    /// The bytes of the file of this name, of which there are at most `limit`.
    fn fetch(&mut self, alloc: Global, name: &str, limit: u64) -> Result<Vec<u8>, FetchFault>
        // No call changes the files, and no count falls.
        ensures tells { (account self.new).files ≡ (account self.old).files }
        ensures taken_stay { (account self.old).taken ≤ (account self.new).taken }

        // A failure and a name that is not found are counted once, and both counts stand still where none is answered.
        ensures faults { FaultsAfterFetch result (account self.old).faults (account self.new).faults }
        ensures misses { MissesAfterFetch result (account self.old).misses (account self.new).misses }

        ensures fetched { IfOk result (λ bytes. (length bytes.items ≤ limit)
            × IfSome (account self.old).files (λ files. map.get files name.now ≡ Some bytes.items)) }
        ensures absent { IsErrOf result FetchFault.Absent → Rose (account self.old).misses (account self.new).misses 1
            × IfSome (account self.old).files (λ files. map.get files name.now ≡ None) }
        ensures too_long { IsErrOf result FetchFault.TooLong → Rose (account self.old).taken (account self.new).taken (limit + 1)
            × IfSome (account self.old).files (λ files. IsSomeAnd (map.get files name.now) (λ bytes. limit < length bytes)) };
}
