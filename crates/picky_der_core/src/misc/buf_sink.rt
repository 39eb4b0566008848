//! A vector as a sink.
ghost use Rattle.std.specs.Prelude.{◌≡◌, suc, ◌+◌, ◌<◌, ◌≤◌, ◌++◌, length, take, drop, Some, IsOk, IfOk, OnOk};
ghost use Rattle.std.specs.Prelude.{IfErr, OnErr, vec_len};
ghost use Rattle.std.specs.IoError.{error_kind};
ghost use Rattle.std.specs.Io.KnownBytes.{Keeps, WriteAppends};
ghost use Rattle.std.specs.Io.{WritesAtMost};
ghost use Rattle.std.specs.declared.io.ErrorKind.{ErrorKind};
ghost use Rattle.std.specs.declared.io.ErrorKind.TheVariants.{OutOfMemory};
ghost use Rattle.std.proofs.Common.{◌∙◌, refl};
ghost use Rattle.picky_der_core.specs.Faults.{count_of};
ghost use Rattle.picky_der_core.specs.Writer.{at_least, at_least_trans, later_drop};

use super::{Faults, WriteExt};
use std::alloc::AllocError;
use std::io;
use std::io::{Error, ErrorKind, Write};

// Writes the bytes over the old ones from `at` on, and past the end.
fn overwrite(buf: &mut Vec<u8>, at: usize, bytes: &[u8]) -> Result<(), AllocError>
    requires { at ≤ vec_len buf.old }
    ensures ok { OnOk result (buf.new.items
        ≡ take at buf.old.items ++ bytes.now ++ drop (at + length bytes.now) buf.old.items) }
    ensures err { OnErr result (buf.new.items ≡ buf.old.items) }
    ensures some { OnErr result (0 < length bytes.now) }
{
    let room = buf.len() - at;
    if bytes.len() <= room {
        let end = at + bytes.len();
        buf[at..end].copy_from_slice(bytes);
        return Ok(());
    }
    buf.extend_from_slice(&bytes[room..])?;
    let end = at + room;
    buf[at..end].copy_from_slice(&bytes[..room]);
    Ok(())
}

/// A sink that overwrites a vector from its first byte on, and then appends to it.
#[derive(Drop)]
pub struct BufSink<'a> {
    buf: &'a mut Vec<u8>,
    at: usize,
    faults: Faults<()>,
    ghost within: { at ≤ vec_len buf.now },
}

impl<'a> BufSink<'a> {
    ghost use Rattle.picky_der_core.specs.Sink.{vector_of, position_of, faults_of};

    /// Writes over the vector from its first byte on.
    pub fn new(buf: &'a mut Vec<u8>) -> BufSink<'a>
        ensures same_reference { (vector_of result).ghost_name ≡ buf.entry.ghost_name }
        ensures same { (vector_of result).now ≡ buf.old }
        ensures start { position_of result ≡ 0 }
        ensures no_fault { faults_of result ≡ 0 }
    {
        BufSink {
            buf,
            at: 0,
            faults: Faults::Fresh,
        }
    }

    /// Returns the vector: what was written, and after it what it held before.
    pub fn into_inner(self) -> &'a mut Vec<u8>
        ensures same_reference { result.ghost_name ≡ (vector_of self.entry).ghost_name }
        ensures same { result.now ≡ (vector_of self.entry).now }
    {
        let BufSink {
            buf,
            at: _,
            faults: _,
        } = self;
        buf
    }

    // Writes all of the bytes, or none.
    fn push(&mut self, bytes: &[u8]) -> io::Result<usize>
        ensures count { IfOk result (λ n. n ≡ length bytes.now) }
        ensures moves { OnOk result (self.new.at ≡ self.old.at + length bytes.now) }
        ensures stays { OnErr result (self.new.at ≡ self.old.at) }
        ensures writes { OnOk result (self.new.buf.now.items
            ≡ take self.old.at self.old.buf.now.items ++ bytes.now
            ++ drop (self.old.at + length bytes.now) self.old.buf.now.items) }
        ensures nothing { OnErr result (self.new.buf.now.items ≡ self.old.buf.now.items) }
        ensures some { OnErr result (0 < length bytes.now) }
        ensures kind { IfErr result (λ e. error_kind e ≡ ErrorKind.OutOfMemory) }
        ensures fault { OnErr result (count_of self.new.faults ≡ suc (count_of self.old.faults)) }
        ensures no_fault { OnOk result (count_of self.new.faults ≡ count_of self.old.faults) }
        ensures same_reference { self.new.buf.ghost_name ≡ self.old.buf.ghost_name }
    {
        match overwrite(self.buf, self.at, bytes) {
            Ok(()) => {
                self.at += bytes.len();
                Ok(bytes.len())
            }
            Err(e) => {
                self.faults.raise(ErrorKind::OutOfMemory, &());
                Err(Error::from(e))
            }
        }
    }
}

impl Write for BufSink<'_> {
    ghost use Rattle.picky_der_core.specs.Sink.{written_of, faults_of, IsLater};

    ghost contents = { λ s. Some (written_of s) };

    fn write(&mut self, bytes: &[u8]) -> io::Result<usize>
        ensures bound { WritesAtMost result bytes.now }
        ensures bytes { WriteAppends (Some (written_of self.old))
            (Some (written_of self.new)) result bytes.now }
        ensures count { IfOk result (λ n. n ≡ length bytes.now) }
        ensures fault { IfErr result (λ e. (faults_of self.new ≡ suc (faults_of self.old))
            × (error_kind e ≡ OutOfMemory)) }
        ensures no_fault { OnOk result (faults_of self.new ≡ faults_of self.old) }
        ensures continues { IsLater self.old self.new }
    {
        self.push(bytes)
    }

    fn flush(&mut self) -> io::Result<()>
        ensures ok { IsOk result }
        ensures same { self.new ≡ self.old }
        ensures bytes { Keeps (Some (written_of self.old)) (Some (written_of self.new)) }
    {
        Ok(())
    }
}

impl WriteExt for BufSink<'_> {
    ghost use Rattle.picky_der_core.specs.Sink.{position_of, written_of, faults_of, IsLater};

    ghost written = { λ s. Some (written_of s) };

    ghost faults = { λ s. faults_of s };

    ghost answers = { λ k. k ≡ OutOfMemory };

    ghost later = { IsLater };

    fn write_exact(&mut self, bytes: &[u8]) -> io::Result<usize> {
        self.push(bytes)
    }

    ghost tells = { λ _. refl };

    ghost later_refl = { λ s. (refl, at_least (position_of s), refl) };

    ghost later_trans = { λ s t u a b. (
      b.0 ∙ a.0,
      at_least_trans (position_of s) (position_of t) (position_of u) a.1 b.1,
      later_drop
          (position_of t) (position_of u) _ _ _ b.1 a.2 b.2,
    ) };
}
