//! Bytes, consumed one at a time or in pieces.
ghost use Rattle.picky_der_core.specs.Element.{AreBytes};
ghost use Rattle.picky_der_core.specs.Failure.{failure_of};
ghost use Rattle.std.specs.Prelude.{◌≡◌, ◌<◌, ◌≤◌, ◌∷◌, [], ℕ, List, length, None, Some, IfOk, IfErr, OnOk};
ghost use Rattle.picky_der_de.specs.Steps.{Consumed, ConsumesBytes, ConsumesKept, ConsumesAfter, GrowsByConsumed};
ghost use Rattle.picky_der_de.specs.Steps.{ConsumesPiece, StopsShort};
ghost use Rattle.picky_der_de.specs.Steps.{Fails, IsMissing, UsesNoMemory};

use super::Deserializer;
use arrayvec::ArrayVec;
use picky_der_core::misc::ReadExt;
use picky_der_core::{Asn1DerError, Result};

// The greatest number of bytes that are read at a time, whatever length the header of a content has.
const PIECE: usize = 512;

// How many bytes of a content are kept: one more than the longest content of a plain kind has, which is that of a
// number.
const KEPT: usize = 18;

impl<R: ReadExt> Deserializer<R> {
    // The next byte before the innermost end.
    pub(crate) fn next_byte(&mut self) -> Result<u8>
        ensures ok { IfOk result (λ b. Consumed self.old self.new (b ∷ [])) }
        ensures byte { IfOk result (λ b. b < 256) }
        ensures implicit_tag { OnOk result (self.new.implicit_tag ≡ self.old.implicit_tag) }
        ensures err { IfErr result (Fails self.old self.new) }
        ensures missing { IfErr result (λ e. self.old.failed ≡ None
            → self.new.faults ≡ self.old.faults → IsMissing self.old e) }
        ensures unmoved { IfErr result (λ e. self.new
            ≡ record self.old {
              failed = Some (failure_of e);
              faults = self.new.faults;
              input = self.new.input;
            }) }
    {
        if let Some(error) = self.earlier() {
            return Err(error);
        }
        if self.until_end == 0 {
            let error = self.end.missing();
            return Err(self.fail(error));
        }
        match self.reader.read_next() {
            Ok(Some(byte)) => {
                self.until_end -= 1;
                Ok(byte)
            }
            Ok(None) => Err(self.fail(Asn1DerError::TruncatedData)),
            Err(error) => Err(self.fault(error)),
        }
    }

    // Consumes the content, and keeps its first bytes.
    pub(crate) fn fetch_kept(&mut self, len: usize) -> Result<ArrayVec<u8, KEPT>>
        requires had_not_failed { self.old.failed ≡ None }
        requires unpeeked { self.old.peeked ≡ None }
        ensures ok { IfOk result (λ kept. ConsumesKept self.old self.new len kept.items) }
        ensures implicit_tag { OnOk result (self.new.implicit_tag ≡ self.old.implicit_tag) }
        ensures err { IfErr result (StopsShort self.old self.new len) }
        ensures memory { IfErr result (UsesNoMemory self.old self.new) }
    {
        let mut kept = ArrayVec::new();
        for _i in 0..len {
            let byte = self.next_byte()?;
            let _ = kept.try_push(byte);
        }
        Ok(kept)
    }

    // Reads the content into a vector.
    pub(crate) fn fetch_vec(&mut self, len: usize) -> Result<Vec<u8>>
        requires had_not_failed { self.old.failed ≡ None }
        requires unpeeked { self.old.peeked ≡ None }
        ensures ok { IfOk result (λ bytes. Consumed self.old self.new bytes.items
            × (length bytes.items ≡ len) × AreBytes bytes.items) }
        ensures implicit_tag { OnOk result (self.new.implicit_tag ≡ self.old.implicit_tag) }
        ensures err { IfErr result (StopsShort self.old self.new len) }
    {
        match self.copy_ahead(len) {
            Ok(Some(content)) => Ok(content),
            Ok(None) => self.fetch_pieces(len),
            Err(error) => Err(error),
        }
    }

    // The same, piece by piece.
    #[cold]
    #[inline(never)]
    fn fetch_pieces(&mut self, len: usize) -> Result<Vec<u8>>
        requires had_not_failed { self.old.failed ≡ None }
        requires unpeeked { self.old.peeked ≡ None }
        ensures ok { IfOk result (λ bytes. Consumed self.old self.new bytes.items
            × (length bytes.items ≡ len) × AreBytes bytes.items) }
        ensures implicit_tag { OnOk result (self.new.implicit_tag ≡ self.old.implicit_tag) }
        ensures err { IfErr result (StopsShort self.old self.new len) }
    {
        let mut content = Vec::new(self.alloc);
        self.fetch_after(&mut content, len)?;
        Ok(content)
    }

    // Reads the content, and appends it to the vector. Whatever length the header has, the vector grows only by the
    // bytes that were read.
    pub(crate) fn fetch_after(&mut self, bytes: &mut Vec<u8>, len: usize) -> Result<()>
        requires had_not_failed { self.old.failed ≡ None }
        requires unpeeked { self.old.peeked ≡ None }
        ensures ok { OnOk result (ConsumesAfter bytes.old.items self.old self.new len
            bytes.new.items) }
        ensures implicit_tag { OnOk result (self.new.implicit_tag ≡ self.old.implicit_tag) }
        ensures err { IfErr result (StopsShort self.old self.new len) }
        ensures no_longer { GrowsByConsumed bytes.old.items bytes.new.items self.old self.new }
    {
        let mut piece = [0; PIECE];
        let mut left = len;
        while left > 0 {
            left -= self.append_piece(bytes, &mut piece, left)?;
        }
        Ok(())
    }

    // Reads a piece of the content, of which `left` bytes are left, and appends it to the vector.
    fn append_piece(
        &mut self,
        bytes: &mut Vec<u8>,
        piece: &mut [u8; PIECE],
        left: usize,
    ) -> Result<usize>
        requires had_not_failed { self.old.failed ≡ None }
        requires unpeeked { self.old.peeked ≡ None }
        requires some_left { 0 < left }
        ensures ok { IfOk result (λ n. ConsumesAfter bytes.old.items self.old self.new n
            bytes.new.items × (0 < n) × (n ≤ left)) }
        ensures implicit_tag { OnOk result (self.new.implicit_tag ≡ self.old.implicit_tag) }
        ensures err { IfErr result (StopsShort self.old self.new left) }
        ensures no_longer { GrowsByConsumed bytes.old.items bytes.new.items self.old self.new }
    {
        let count = self.fetch_piece(piece, left)?;
        if bytes.extend_from_slice(&piece[..count]).is_err() {
            return Err(self.fail(Asn1DerError::OutOfMemory));
        }
        Ok(count)
    }

    // Consumes the content, and drops it.
    pub(crate) fn skip(&mut self, len: usize) -> Result<()>
        requires had_not_failed { self.old.failed ≡ None }
        requires unpeeked { self.old.peeked ≡ None }
        ensures ok { OnOk result ((content : List ℕ) × ConsumesBytes self.old self.new len content) }
        ensures implicit_tag { OnOk result (self.new.implicit_tag ≡ self.old.implicit_tag) }
        ensures err { IfErr result (StopsShort self.old self.new len) }
        ensures memory { IfErr result (UsesNoMemory self.old self.new) }
    {
        let mut piece = [0; PIECE];
        let mut left = len;
        while left > 0 {
            left -= self.fetch_piece(&mut piece, left)?;
        }
        Ok(())
    }

    // Reads as many bytes of the content as one read gives, where `left` bytes are left of it, into the front of the
    // piece. At least one byte is read.
    fn fetch_piece(&mut self, piece: &mut [u8], left: usize) -> Result<usize>
        requires had_not_failed { self.old.failed ≡ None }
        requires unpeeked { self.old.peeked ≡ None }
        requires some_left { 0 < left }
        requires some_room { 0 < length piece.old }
        ensures ok { IfOk result (λ n. ConsumesPiece self.old self.new left n piece.new) }
        ensures implicit_tag { OnOk result (self.new.implicit_tag ≡ self.old.implicit_tag) }
        ensures err { IfErr result (Fails self.old self.new) }
        ensures missing { IfErr result (λ e. self.old.failed ≡ None
            → self.new.faults ≡ self.old.faults → IsMissing self.old e) }
        ensures unmoved { IfErr result (λ e. self.new
            ≡ record self.old {
              failed = Some (failure_of e);
              faults = self.new.faults;
              input = self.new.input;
            }) }
    {
        if self.until_end == 0 {
            let error = self.end.missing();
            return Err(self.fail(error));
        }
        let most = left.min(self.until_end).min(piece.len());
        match self.reader.read_some(&mut piece[..most]) {
            Ok(0) => Err(self.fail(Asn1DerError::TruncatedData)),
            Ok(count) => {
                self.until_end -= count;
                Ok(count)
            }
            Err(error) => Err(self.fault(error)),
        }
    }
}
