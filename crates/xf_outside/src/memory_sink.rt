//! A sink in memory.
ghost use Rattle.std.specs.Prelude.{◌≡◌, ℕ, ◌+◌, ◌≤◌, ◌++◌, [], List, Option, Some, option_map, take, OnOk, OnErr, IsNone, IsSomeAnd, IsErrOf};
ghost use Rattle.xf_outside.specs.Count.{FaultsAfterPut, count_after};
ghost use Rattle.xf_outside.specs.Prefix.{AppendsPrefix};
ghost use Rattle.xf_outside.specs.Tape.{cut_of};

use crate::sink::{PutFault, Sink};
use std::alloc::Global;
use std::marker::Model;

/// A sink that keeps its bytes in memory, and which fails at the calls that it was told to fail at.
#[derive(Debug, Drop)]
pub struct MemorySink {
    bytes: Vec<u8>,
    failing: Vec<(u64, u64)>,
    calls: u64,
    faults: u64,
}

impl Model for MemorySink {
    ghost use Rattle.xf_outside.specs.Tape.{Tape};

    ghost Value = { Tape };

    ghost view = { λ sink. record { bytes = sink.bytes.items; failing = sink.failing.items; calls = sink.calls; faults = sink.faults } };
}

impl MemorySink {
    /// An empty sink. For a pair (c, k) of `failing` the put call of number c, from 1 on, keeps the first k bytes of
    /// its text, or all where there are fewer, and fails. Where c stands twice the first pair counts.
    pub fn new(alloc: Global, failing: Vec<(u64, u64)>) -> MemorySink
        ensures { result ≡ record { bytes = []; failing = failing.items; calls = 0; faults = 0 } }
    {
        MemorySink {
            bytes: Vec::new(alloc),
            failing,
            calls: 0,
            faults: 0,
        }
    }

    /// All bytes that were put.
    pub fn bytes(&self) -> &[u8]
        ensures { result.now ≡ self.now.bytes }
    {
        self.bytes.as_slice()
    }
}

impl Sink for MemorySink {
    ghost use Rattle.xf_outside.specs.Tape.{tape_account};

    ghost account = { tape_account };

    fn put(&mut self, text: &[u8]) -> Result<(), PutFault>
        ensures put { OnOk result (self.new.bytes ≡ self.old.bytes ++ text.now) }
        ensures partly { OnErr result (AppendsPrefix (Some self.old.bytes) (Some self.new.bytes) text.now) }
        ensures faults { FaultsAfterPut result self.old.faults self.new.faults }

        // The calls fail that were told to, and keep what they were told to.
        ensures whole { OnOk result (IsNone (cut_of self.old.failing (count_after self.old.calls 1))) }
        ensures cut { IsErrOf result PutFault.Failed → IsSomeAnd (cut_of self.old.failing (count_after self.old.calls 1))
            (λ kept. self.new ≡ record self.old {
              bytes = self.old.bytes ++ take kept text.now;
              calls = count_after self.old.calls 1;
              faults = count_after self.old.faults 1;
            }) }
        ensures never_fails { self.old.failing ≡ [] → self.new.faults ≡ self.old.faults }

        // What the other outcomes change.
        ensures ok { OnOk result (self.new ≡ record self.old { bytes = self.old.bytes ++ text.now; calls = count_after self.old.calls 1 }) }
        ensures memory { IsErrOf result PutFault.OutOfMemory → self.new ≡ record self.old { calls = count_after self.old.calls 1 } }
    {
        self.calls = self.calls.saturating_add(1);
        match find_cut(self.failing.as_slice(), self.calls) {
            Some(kept) => {
                self.bytes.extend_from_slice(first_bytes(text, kept))?;
                self.faults = self.faults.saturating_add(1);
                Err(PutFault::Failed)
            }
            None => {
                self.bytes.extend_from_slice(text)?;
                Ok(())
            }
        }
    }
}

/// How many bytes the call of this number keeps before it fails.
fn find_cut(failing: &[(u64, u64)], call: u64) -> Option<u64>
    ensures { result ≡ cut_of failing.now call }
{
    failing
        .iter()
        .find(|pair| pair.0 == call)
        .map(|pair| pair.1)
}

/// The first bytes of a text, or all where there are fewer.
fn first_bytes(text: &[u8], count: u64) -> &[u8]
    ensures { result.now ≡ take count text.now }
{
    let count = count.min(text.len() as u64) as usize;
    &text[..count]
}
