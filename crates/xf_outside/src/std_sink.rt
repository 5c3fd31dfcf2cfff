//! A sink over the standard output.
ghost use Rattle.std.specs.Prelude.{◌≡◌, ℕ, ◌+◌, ◌≤◌, ◌++◌, List, length, None, false, IsTrue, OnOk, OnErr, IsErrOf, IsOkUnless, IsSome};
ghost use Rattle.std.specs.Io.KnownBytes.{Appends};
ghost use Rattle.xf_outside.specs.Count.{CountsError, Rose};
ghost use Rattle.xf_outside.specs.Prefix.{AppendsKnownPrefix};

use crate::counted_output::CountedOutput;
use crate::sink::{PutFault, Sink};
use std::io;
use std::io::{Printer, Write};
use std::marker::Model;

/// A sink over the standard output of a runtime. It tells nothing of what was written, and counts what failed.
#[derive(Drop)]
pub struct StdSink<'a, R: Print> {
    output: CountedOutput<Printer<'a, R>>,
}

impl<'a, R: Print> Model for StdSink<'a, R> {
    ghost use Rattle.xf_outside.specs.Put.{PutCounts};

    ghost Value = { PutCounts };

    ghost view = { λ sink. record { faults = sink.output.faults; taken = sink.output.taken; is_flushed = sink.output.is_flushed } };
}

impl<'a, R: Print> StdSink<'a, R> {
    /// A sink that has counted nothing yet.
    pub fn new(rt: &'a R) -> StdSink<'a, R>
        ensures { result ≡ record { faults = 0; taken = 0; is_flushed = false } }
    {
        StdSink {
            output: CountedOutput::new(io::writer(rt)),
        }
    }

    /// What the system said of the last put that failed. It is for a person to read, and no contract sees it.
    pub fn failure(&self) -> Option<io::Error> {
        self.output.failure()
    }
}

impl<R: Print> Sink for StdSink<'_, R> {
    ghost use Rattle.xf_outside.specs.Put.{untold_sink};

    ghost account = { untold_sink };

    fn put(&mut self, text: &[u8]) -> Result<(), PutFault>
        ensures whole { OnOk result (Rose self.old.taken self.new.taken (length text.now)) }
        ensures flushed { OnOk result (IsTrue self.new.is_flushed) }
        ensures few { self.new.taken ≤ self.old.taken + length text.now }
        ensures faults { CountsError result self.old.faults self.new.faults }
        ensures failed { IsOkUnless result PutFault.Failed }
    {
        write_whole(&mut self.output, text)
    }
}

/// Writes a text piece by piece until the output has taken all of it, and flushes.
fn write_whole<W: Write>(output: &mut CountedOutput<W>, text: &[u8]) -> Result<(), PutFault>
    ensures ok { OnOk result (Appends (W.contents output.old.writer) (W.contents output.new.writer) text.now) }
    ensures flushed { OnOk result (IsTrue output.new.is_flushed) }

    // A failure ends the writing: a first part of the text was written.
    ensures partly { OnErr result (AppendsKnownPrefix (W.contents output.old.writer) (W.contents output.new.writer) text.now) }

    // The bytes are counted, at most those of the text, and the failure once.
    ensures whole { OnOk result (Rose output.old.taken output.new.taken (length text.now)) }
    ensures few { output.new.taken ≤ output.old.taken + length text.now }
    ensures faults { CountsError result output.old.faults output.new.faults }
    ensures failed { IsOkUnless result PutFault.Failed }
    ensures caused { IsErrOf result PutFault.Failed → IsSome output.new.failure }
{
    let mut rest = text;
    while !rest.is_empty() {
        let count = output.write(rest)?;
        rest = &rest[count..];
    }
    output.flush()
}
