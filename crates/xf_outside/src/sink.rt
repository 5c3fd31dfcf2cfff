//! A sink: where bytes are put, one after another.
ghost use Rattle.std.specs.Prelude.{◌≡◌, ◌++◌, option_map, OnOk, OnErr};
ghost use Rattle.xf_outside.specs.Account.{SinkAccount};
ghost use Rattle.xf_outside.specs.Count.{FaultsAfterPut};
ghost use Rattle.xf_outside.specs.Prefix.{AppendsPrefix};

use std::alloc::AllocError;
use thiserror::Error;

/// Why bytes were not put, or not all of them.
#[derive(Clone, Copy, Debug, PartialEq, Eq, Error)]
pub enum PutFault {
    /// The outside failed. The next call may succeed.
    #[error("writing failed")]
    Failed,
    /// Memory was refused for the bytes.
    #[error("out of memory")]
    OutOfMemory,
}

impl From<AllocError> for PutFault {
    ghost use Rattle.std.specs.Prelude.{◌≡◌};
    ghost use Rattle.xf_outside.specs.declared.sink.PutFault.TheVariants.{OutOfMemory};

    ghost from_gives = { λ _ e. e ≡ OutOfMemory };

    fn from(_error: AllocError) -> PutFault {
        PutFault::OutOfMemory
    }
}

/// Where bytes are put.
pub trait Sink {
    /// What the sink tells of itself: its bytes, and how often it failed.
    ghost account: { Self → SinkAccount };

    /// Puts a text after the bytes that were put before.
    fn put(&mut self, text: &[u8]) -> Result<(), PutFault>
        ensures put { OnOk result ((account self.new).bytes ≡ option_map (λ before. before ++ text.now) (account self.old).bytes) }

        // An error leaves a first part of the text put.
        ensures partly { OnErr result (AppendsPrefix (account self.old).bytes (account self.new).bytes text.now) }

        // A failure is counted once, and the count of faults stands still where none is answered.
        ensures faults { FaultsAfterPut result (account self.old).faults (account self.new).faults };
}
