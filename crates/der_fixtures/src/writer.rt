//! Writers that collect the bytes in a vector.
ghost use Rattle.std.specs.Prelude.{◌≡◌, [], Some};
ghost use Rattle.der_fixtures.specs.Devices.{taken_by, writer_of};

use std::alloc::Global;
use std::io;
use std::io::{ErrorKind, Write};

/// A writer that accepts one byte per call, however many there are.
#[derive(Drop)]
pub struct SlowWriter {
    taken: Vec<u8>,
}

impl SlowWriter {
    /// Returns a writer with no bytes yet.
    pub fn new(alloc: Global) -> SlowWriter
        ensures { taken_by result ≡ [] }
    {
        SlowWriter {
            taken: Vec::new(alloc),
        }
    }

    /// Returns the bytes that were written.
    pub fn taken(&self) -> &[u8]
        ensures { result.now ≡ taken_by self.now }
    {
        &self.taken
    }
}

impl Write for SlowWriter {
    ghost contents = { λ w. Some (taken_by w) };

    fn write(&mut self, bytes: &[u8]) -> io::Result<usize> {
        match bytes.first() {
            Some(first) => {
                self.taken.push(*first)?;
                Ok(1)
            }
            None => Ok(0),
        }
    }

    fn flush(&mut self) -> io::Result<()> {
        Ok(())
    }
}

/// How a call of a writer fails.
#[derive(Clone, Copy, Debug)]
pub enum WriterFault {
    /// With an error of this kind.
    Error(ErrorKind),
    /// By accepting no byte.
    TakesNothing,
}

impl WriterFault {
    /// A copy is the same fault.
    pub fn copies()
        ensures { (fault copy : _) → ⟦<WriterFault as Clone>⟧.is_clone fault copy → copy ≡ fault }
    {}
}

/// A writer that accepts one byte per call, except for one call that fails. The call after that accepts a byte again.
#[derive(Drop)]
pub struct FailingWriter {
    writer: SlowWriter,
    // How many more calls come before the one that fails, or `None` after it.
    before: Option<usize>,
    refusal: WriterFault,
}

impl FailingWriter {
    /// Returns a writer whose call number `call` fails in this way. Calls are counted from 1. With 0, no call fails.
    pub fn new(alloc: Global, call: usize, refusal: WriterFault) -> FailingWriter
        ensures { taken_by (writer_of result) ≡ [] }
    {
        FailingWriter {
            writer: SlowWriter::new(alloc),
            before: call.checked_sub(1),
            refusal,
        }
    }

    /// Returns the bytes that were written.
    pub fn taken(&self) -> &[u8]
        ensures { result.now ≡ taken_by (writer_of self.now) }
    {
        self.writer.taken()
    }
}

impl Write for FailingWriter {
    ghost contents = { λ w. Some (taken_by (writer_of w)) };

    fn write(&mut self, bytes: &[u8]) -> io::Result<usize> {
        match self.before {
            Some(0) => {
                self.before = None;
                match self.refusal {
                    WriterFault::Error(kind) => Err(kind.into()),
                    WriterFault::TakesNothing => Ok(0),
                }
            }
            Some(calls) => {
                self.before = Some(calls - 1);
                self.writer.write(bytes)
            }
            None => self.writer.write(bytes),
        }
    }

    fn flush(&mut self) -> io::Result<()> {
        self.writer.flush()
    }
}
