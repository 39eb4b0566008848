//! Lengths and headers, byte by byte.
ghost use Rattle.std.specs.Prelude.{◌≡◌, ◌≤◌, ◌∷◌, ◌<◌, ◌^◌, None, IfOk, IfErr, OnOk};
ghost use Rattle.picky_der_core.specs.Element.{length_octets};
ghost use Rattle.picky_der_core.specs.Tag.{number_of, IsTagNumber};
ghost use Rattle.picky_der_de.specs.Steps.{Consumed, StopsShort, UsesNoMemory};
ghost use Rattle.picky_der_de.specs.Headers.{ReadsDigits, RefusesLength, RefusesContentLength, RefusesHeader};
ghost use Rattle.picky_der_de.specs.Headers.{BeginsContent, RefusesBegin};

use super::Deserializer;
use picky_der_core::asn1::Tag;
use picky_der_core::misc::{Length, ReadExt};
use picky_der_core::{Asn1DerError, Result};

impl<R: ReadExt> Deserializer<R> {
    // The number of `count` length bytes.
    fn read_digits(&mut self, count: usize) -> Result<usize>
        requires few { count ≤ 8 }
        requires had_not_failed { self.old.failed ≡ None }
        requires unpeeked { self.old.peeked ≡ None }
        ensures ok { IfOk result (ReadsDigits self.old self.new count) }
        ensures fits { IfOk result (λ n. n < 2 ^ 64) }
        ensures implicit_tag { OnOk result (self.new.implicit_tag ≡ self.old.implicit_tag) }
        ensures err { IfErr result (StopsShort self.old self.new count) }
        ensures memory { IfErr result (UsesNoMemory self.old self.new) }
    {
        let mut len = 0;
        for _i in 0..count {
            len = len * 256 + usize::from(self.next_byte()?);
        }
        Ok(len)
    }

    // A length. For a missing byte the error is that of the innermost end.
    fn read_length(&mut self) -> Result<usize>
        requires had_not_failed { self.old.failed ≡ None }
        requires unpeeked { self.old.peeked ≡ None }
        ensures ok { IfOk result (λ n. Consumed self.old self.new (length_octets n)) }
        ensures fits { IfOk result (λ n. n < 2 ^ 64) }
        ensures implicit_tag { OnOk result (self.new.implicit_tag ≡ self.old.implicit_tag) }
        ensures err { IfErr result (RefusesLength self.old self.new) }
        ensures memory { IfErr result (UsesNoMemory self.old self.new) }
    {
        let first = self.next_byte()?;
        if first < 0x80 {
            return Ok(usize::from(first));
        }
        let count = match Length::long_count(first) {
            Ok(count) => count,
            Err(error) => return Err(self.fail(error)),
        };
        let len = self.read_digits(count)?;
        match Length::shortest(count, len) {
            Ok(len) => Ok(len),
            Err(error) => Err(self.fail(error)),
        }
    }

    // The length of a content, which doesn't reach past the innermost end. It follows the first byte of any header.
    pub(crate) fn read_content_length(&mut self) -> Result<usize>
        requires had_not_failed { self.old.failed ≡ None }
        requires unpeeked { self.old.peeked ≡ None }
        ensures ok { IfOk result (λ n. Consumed self.old self.new (length_octets n)
            × (n ≤ self.new.until_end)) }
        ensures implicit_tag { OnOk result (self.new.implicit_tag ≡ self.old.implicit_tag) }
        ensures err { IfErr result (RefusesContentLength self.old self.new) }
        ensures memory { IfErr result (UsesNoMemory self.old self.new) }
    {
        let len = self.read_length()?;
        if len > self.until_end {
            let error = self.end.missing();
            return Err(self.fail(error));
        }
        Ok(len)
    }

    // The length of the content of an element with this tag.
    pub(crate) fn read_header(&mut self, tag: Tag) -> Result<usize>
        requires number { IsTagNumber (number_of tag) }
        requires had_not_failed { self.old.failed ≡ None }
        ensures ok { IfOk result (λ n. Consumed self.old self.new (tag ∷ length_octets n)
            × (n ≤ self.new.until_end)) }
        ensures implicit_tag { OnOk result (self.new.implicit_tag ≡ self.old.implicit_tag) }
        ensures err { IfErr result (RefusesHeader tag self.old self.new) }
        ensures memory { IfErr result (UsesNoMemory self.old self.new) }
    {
        match self.take_header_ahead(tag) {
            Some(len) => Ok(len),
            None => self.fetch_header(tag),
        }
    }

    // The same, byte by byte.
    #[cold]
    #[inline(never)]
    fn fetch_header(&mut self, tag: Tag) -> Result<usize>
        requires number { IsTagNumber (number_of tag) }
        requires had_not_failed { self.old.failed ≡ None }
        ensures ok { IfOk result (λ n. Consumed self.old self.new (tag ∷ length_octets n)
            × (n ≤ self.new.until_end)) }
        ensures implicit_tag { OnOk result (self.new.implicit_tag ≡ self.old.implicit_tag) }
        ensures err { IfErr result (RefusesHeader tag self.old self.new) }
        ensures memory { IfErr result (UsesNoMemory self.old self.new) }
    {
        let first = self.next_byte()?;
        if first != tag.inner() {
            return Err(self.fail(Asn1DerError::InvalidData));
        }
        self.read_content_length()
    }

    // What `begin` does in the other cases: it has failed, or is directly under an implicit tag, or its header isn't
    // ahead whole.
    #[cold]
    #[inline(never)]
    pub(super) fn fetch_begin(&mut self, tag: Tag) -> Result<usize>
        requires number { IsTagNumber (number_of tag) }
        ensures ok { IfOk result (BeginsContent tag self.old self.new) }
        ensures err { IfErr result (RefusesBegin tag self.old self.new) }
        ensures memory { IfErr result (UsesNoMemory self.old self.new) }
    {
        if let Some(error) = self.earlier() {
            return Err(error);
        }
        if self.implicit_tag.is_some() {
            self.implicit_tag = None;
            return Ok(self.until_end);
        }
        self.fetch_header(tag)
    }
}
