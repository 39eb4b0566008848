//! A slice as a sink.
ghost use Rattle.std.specs.Prelude.{◌≡◌, suc, ◌+◌, ◌-◌, ◌<◌, ◌≤◌, ◌++◌, ◌↔◌, min, length, take, drop};
ghost use Rattle.std.specs.Prelude.{Ok, Some, IsOk, IfOk, OnOk, IfErr, OnErr};
ghost use Rattle.std.specs.IoError.{error_kind};
ghost use Rattle.std.specs.declared.io.ErrorKind.{ErrorKind};
ghost use Rattle.std.specs.declared.io.ErrorKind.TheVariants.{WriteZero};
ghost use Rattle.std.specs.Io.KnownBytes.{Appends, Keeps, WriteAppends};
ghost use Rattle.std.specs.Io.{WritesAtMost};
ghost use Rattle.std.proofs.Common.{◌∙◌, refl};
ghost use Rattle.picky_der_core.specs.Faults.{count_of};
ghost use Rattle.picky_der_core.specs.Writer.{AppendsTooFew, at_least, at_least_trans, later_drop};

use super::{Faults, WriteExt};
use std::io;
use std::io::{Error, ErrorKind, Write};

/// A sink that fills a slice from its first byte on. A full sink accepts no more bytes.
#[derive(Drop)]
pub struct SliceSink<'a> {
    buf: &'a mut [u8],
    at: usize,
    faults: Faults<()>,
    ghost within: { at ≤ length buf.now },
    ghost full: { 0 < count_of faults → at ≡ length buf.now },
}

impl<'a> SliceSink<'a> {
    ghost use Rattle.picky_der_core.specs.SliceSink.{slice_of, filled_of, faults_of};

    /// Fills the slice from its first byte on.
    pub fn new(buf: &'a mut [u8]) -> SliceSink<'a>
        ensures same_reference { (slice_of result).ghost_name ≡ buf.entry.ghost_name }
        ensures same { (slice_of result).now ≡ buf.old }
        ensures start { filled_of result ≡ 0 }
        ensures no_fault { faults_of result ≡ 0 }
    {
        SliceSink {
            buf,
            at: 0,
            faults: Faults::Fresh,
        }
    }

    /// Returns the slice: what was written, and after it what it held before. After an error the slice is full.
    pub fn into_inner(self) -> &'a mut [u8]
        ensures same_reference { result.ghost_name ≡ (slice_of self.entry).ghost_name }
        ensures same { result.now ≡ (slice_of self.entry).now }
        ensures within { filled_of self.entry ≤ length result.now }
        ensures full { 0 < faults_of self.entry → filled_of self.entry ≡ length result.now }
    {
        let SliceSink {
            buf,
            at: _,
            faults: _,
        } = self;
        buf
    }

    // Writes as many of the bytes as there is room for, and returns their number.
    fn fill(&mut self, bytes: &[u8]) -> usize
        ensures count { result ≡ min (length bytes.now) (length self.old.buf.now - self.old.at) }
        ensures moves { self.new.at ≡ self.old.at + result }
        ensures writes { self.new.buf.now
            ≡ take self.old.at self.old.buf.now ++ take result bytes.now
            ++ drop (self.old.at + result) self.old.buf.now }
        ensures same_length { length self.new.buf.now ≡ length self.old.buf.now }
        ensures no_fault { count_of self.new.faults ≡ count_of self.old.faults }
        ensures same_reference { self.new.buf.ghost_name ≡ self.old.buf.ghost_name }
    {
        let count = bytes.len().min(self.buf.len() - self.at);
        let end = self.at + count;
        self.buf[self.at..end].copy_from_slice(&bytes[..count]);
        self.at = end;
        count
    }
}

/// A write accepts as many bytes as there is room for: none if the slice is full.
impl Write for SliceSink<'_> {
    ghost use Rattle.picky_der_core.specs.SliceSink.{written_of, room_of, faults_of, IsLater};

    ghost contents = { λ s. Some (written_of s) };

    fn write(&mut self, bytes: &[u8]) -> io::Result<usize>
        ensures bound { WritesAtMost result bytes.now }
        ensures bytes { WriteAppends (Some (written_of self.old))
            (Some (written_of self.new)) result bytes.now }
        ensures count { result ≡ Ok (min (length bytes.now) (room_of self.old)) }
        ensures fault { room_of self.old ≡ 0 → 0 < length bytes.now
            → faults_of self.new ≡ suc (faults_of self.old) }
        ensures no_fault { 0 < room_of self.old → faults_of self.new ≡ faults_of self.old }
        ensures no_bytes { length bytes.now ≡ 0 → faults_of self.new ≡ faults_of self.old }
        ensures continues { IsLater self.old self.new }
    {
        let count = self.fill(bytes);
        if count == 0 && !bytes.is_empty() {
            self.faults.raise(ErrorKind::WriteZero, &());
        }
        Ok(count)
    }

    fn flush(&mut self) -> io::Result<()>
        ensures ok { IsOk result }
        ensures same { self.new ≡ self.old }
        ensures bytes { Keeps (Some (written_of self.old)) (Some (written_of self.new)) }
    {
        Ok(())
    }
}

/// An exact write also accepts as many bytes as there is room for. If this isn't all of them, the error is of kind
/// `WriteZero`.
impl WriteExt for SliceSink<'_> {
    ghost use Rattle.picky_der_core.specs.SliceSink.{slice_of, filled_of, room_of, written_of, faults_of, IsLater};

    ghost written = { λ s. Some (written_of s) };

    ghost faults = { λ s. faults_of s };

    ghost answers = { λ k. k ≡ WriteZero };

    ghost later = { IsLater };

    fn write_exact(&mut self, bytes: &[u8]) -> io::Result<usize>
        ensures count { IfOk result (λ n. n ≡ length bytes.now) }
        ensures appends { OnOk result (Appends (Some (written_of self.old))
            (Some (written_of self.new)) bytes.now) }
        ensures beginning { OnErr result (AppendsTooFew (Some (written_of self.old))
            (Some (written_of self.new)) bytes.now) }
        ensures fits { IsOk result ↔ length bytes.now ≤ room_of self.old }
        ensures fault { IfErr result (λ e. (faults_of self.new ≡ suc (faults_of self.old))
            × (error_kind e ≡ WriteZero)) }
        ensures no_fault { OnOk result (faults_of self.new ≡ faults_of self.old) }
        ensures continues { IsLater self.old self.new }
    {
        let count = self.fill(bytes);
        if count < bytes.len() {
            self.faults.raise(ErrorKind::WriteZero, &());
            return Err(Error::from(ErrorKind::WriteZero));
        }
        Ok(count)
    }

    ghost tells = { λ _. refl };

    ghost later_refl = { λ s. (refl, refl, at_least (filled_of s), refl) };

    ghost later_trans = { λ s t u a b. (
      b.0 ∙ a.0,
      b.1 ∙ a.1,
      at_least_trans (filled_of s) (filled_of t)
          (filled_of u) a.2 b.2,
      later_drop (filled_of t) (filled_of u) _ _ _ b.2 a.3 b.3,
    ) };
}
