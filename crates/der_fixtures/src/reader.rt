//! Readers over given bytes.
ghost use Rattle.std.specs.Prelude.{◌≡◌, ◌+◌, ◌≤◌, length, Some};

use std::io;
use std::io::{ErrorKind, Read};

/// A reader that returns one byte per call, however long the buffer is.
#[derive(Drop)]
pub struct SlowReader<'a> {
    rest: &'a [u8],
    total: usize,
    ghost within: { length rest.now ≤ total },
}

impl<'a> SlowReader<'a> {
    ghost use Rattle.der_fixtures.specs.Devices.{left_of, total_of};

    /// Returns a reader of these bytes.
    pub fn new(bytes: &'a [u8]) -> SlowReader<'a>
        ensures left { left_of result ≡ bytes.now }
        ensures total { total_of result ≡ length bytes.now }
    {
        SlowReader {
            rest: bytes,
            total: bytes.len(),
        }
    }

    /// Returns how many bytes were read.
    pub fn given(&self) -> usize
        ensures { result + length (left_of self.now) ≡ total_of self.now }
    {
        self.total - self.rest.len()
    }
}

impl Read for SlowReader<'_> {
    ghost use Rattle.der_fixtures.specs.Devices.{left_of};

    ghost remaining = { λ r. Some (left_of r) };

    fn read(&mut self, buf: &mut [u8]) -> io::Result<usize> {
        if buf.is_empty() {
            return Ok(0);
        }
        let Some((byte, rest)) = self.rest.split_first() else {
            return Ok(0);
        };
        buf[0] = *byte;
        self.rest = rest;
        Ok(1)
    }
}

/// A reader that returns one byte per call, except for one call that fails. The call after the failure returns the byte
/// that would have come then.
#[derive(Drop)]
pub struct FailingReader<'a> {
    reader: SlowReader<'a>,
    // How many more calls come before the one that fails, or `None` after it.
    before: Option<usize>,
    kind: ErrorKind,
}

impl<'a> FailingReader<'a> {
    ghost use Rattle.der_fixtures.specs.Devices.{left_of, total_of, inner_of};

    /// Returns a reader of these bytes whose call number `call` fails with an error of this kind. Calls are counted
    /// from 1. With 0, no call fails.
    pub fn new(bytes: &'a [u8], call: usize, kind: ErrorKind) -> FailingReader<'a>
        ensures left { left_of (inner_of result) ≡ bytes.now }
        ensures total { total_of (inner_of result) ≡ length bytes.now }
    {
        FailingReader {
            reader: SlowReader::new(bytes),
            before: call.checked_sub(1),
            kind,
        }
    }

    /// Returns how many bytes were read.
    pub fn given(&self) -> usize
        ensures { result + length (left_of (inner_of self.now)) ≡ total_of (inner_of self.now) }
    {
        self.reader.given()
    }
}

impl Read for FailingReader<'_> {
    ghost use Rattle.der_fixtures.specs.Devices.{left_of, inner_of};

    ghost remaining = { λ r. Some (left_of (inner_of r)) };

    fn read(&mut self, buf: &mut [u8]) -> io::Result<usize> {
        match self.before {
            Some(0) => {
                self.before = None;
                Err(self.kind.into())
            }
            Some(calls) => {
                self.before = Some(calls - 1);
                self.reader.read(buf)
            }
            None => self.reader.read(buf),
        }
    }
}
