//! An output that counts how often it fails.
ghost use Rattle.std.specs.Prelude.{◌≡◌, ◌<◌, ◌≤◌, length, false, IsTrue, IfOk, OnOk, OnErr, IsErrOf, IsOkUnless, IsSome};
ghost use Rattle.std.specs.Io.KnownBytes.{Keeps, WriteAppends};
ghost use Rattle.xf_outside.specs.Count.{CountsError, count_after};

use crate::sink::PutFault;
use std::io;
use std::io::{ErrorKind, Write};

/// A writer whose failures are counted, and the bytes that it takes, and which knows whether all of them were flushed.
/// No other module can write to it past the counts.
#[derive(Drop)]
pub struct CountedOutput<W> {
    writer: W,
    faults: u64,
    taken: u64,
    is_flushed: bool,
    failure: Option<io::Error>,
}

impl<W: Write> CountedOutput<W> {
    /// An output that has counted nothing. What the writer took before may not be flushed yet.
    pub fn new(writer: W) -> CountedOutput<W>
        ensures { result ≡ record { writer = writer; faults = 0; taken = 0; is_flushed = false; failure = None } }
    {
        CountedOutput {
            writer,
            faults: 0,
            taken: 0,
            is_flushed: false,
            failure: None,
        }
    }

    /// The error of the last call that failed.
    pub fn failure(&self) -> Option<io::Error>
        ensures { result ≡ self.now.failure }
    {
        self.failure
    }

    /// One write of a first part of a text. A write that takes nothing of a text that is not empty is a failure.
    pub fn write(&mut self, text: &[u8]) -> Result<usize, PutFault>
        ensures bound { IfOk result (λ count. count ≤ length text.now) }
        ensures some { IfOk result (λ count. 0 < length text.now → 0 < count) }
        ensures bytes { WriteAppends (W.contents self.old.writer) (W.contents self.new.writer) result text.now }
        ensures taken { IfOk result (λ count. self.new.taken ≡ count_after self.old.taken count) }
        ensures untaken { OnErr result (self.new.taken ≡ self.old.taken) }
        ensures unflushed { self.new.is_flushed ≡ false }
        ensures faults { CountsError result self.old.faults self.new.faults }
        ensures failed { IsOkUnless result PutFault.Failed }
        ensures caused { IsErrOf result PutFault.Failed → IsSome self.new.failure }
    {
        self.is_flushed = false;
        match self.writer.write(text) {
            Ok(0) if !text.is_empty() => {
                let error = io::Error::new(ErrorKind::WriteZero, "write returned 0 bytes");
                Err(self.fail(error))
            }
            Ok(count) => {
                self.taken = self.taken.saturating_add(count as u64);
                Ok(count)
            }
            Err(error) => Err(self.fail(error)),
        }
    }

    /// Flushes what was written, where that was not done since.
    pub fn flush(&mut self) -> Result<(), PutFault>
        ensures bytes { Keeps (W.contents self.old.writer) (W.contents self.new.writer) }
        ensures flushed { OnOk result (IsTrue self.new.is_flushed) }
        ensures taken { self.new.taken ≡ self.old.taken }
        ensures faults { CountsError result self.old.faults self.new.faults }
        ensures failed { IsOkUnless result PutFault.Failed }
        ensures caused { IsErrOf result PutFault.Failed → IsSome self.new.failure }
    {
        if self.is_flushed {
            return Ok(());
        }
        match self.writer.flush() {
            Ok(()) => {
                self.is_flushed = true;
                Ok(())
            }
            Err(error) => Err(self.fail(error)),
        }
    }

    /// Counts a failure and keeps its error.
    fn fail(&mut self, error: io::Error) -> PutFault
        ensures fault { result ≡ PutFault.Failed }
        ensures kept { self.new ≡ record self.old { failure = Some error; faults = count_after self.old.faults 1 } }
    {
        self.faults = self.faults.saturating_add(1);
        self.failure = Some(error);
        PutFault::Failed
    }
}
