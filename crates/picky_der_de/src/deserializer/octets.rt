//! Contents that aren't looked at.
ghost use Rattle.std.specs.Prelude.{◌≡◌, ◌<◌, length, IfOk, IfErr, IfSome, IfNone};
ghost use Rattle.std.specs.Borrow.{sem};
ghost use Rattle.std.specs.Io.BufRead.{Rests};
ghost use Rattle.picky_der_core.specs.Primitive.{Primitive, PrimitiveShape};
ghost use Rattle.picky_der_core.specs.Tag.{number_of};
ghost use Rattle.picky_der_de.specs.Reading.{ReadsPrimitive, RefusesPrimitive};
ghost use Rattle.picky_der_de.specs.State.{State};
ghost use Rattle.picky_der_de.specs.Lending.{LendsBytes};
ghost use Rattle.picky_der_de.specs.contracts.deserializer.Deserializer.{the_row};
ghost use Rattle.picky_der_de.specs.TagNumbers.{RefusesNumber};

use super::Deserializer;
use super::ahead::{near, short_at_front};
use crate::ShortContent;
use picky_der_core::asn1::Tag;
use picky_der_core::misc::ReadExt;
use picky_der_core::{Asn1DerError, Result};

impl<R: ReadExt> Deserializer<R> {
    /// Reads the content under this tag into one vector. The content isn't checked.
    ///
    /// `UnsupportedValue` for a tag with the number 31, which announces the long form: nothing is consumed or allocated
    /// then. `InvalidData` for another tag. `OutOfMemory` if an allocation fails. Any other error is that of a header
    /// or of an end, or the reader's I/O error.
    #[inline(always)]
    pub fn deserialize_tagged_bytes(&mut self, tag: Tag) -> Result<Vec<u8>>
        ensures ok { IfOk result (λ content. ReadsPrimitive (PrimitiveShape.bytes tag) self.old self.new
            (Primitive.bytes tag content.items)) }
        ensures err { IfErr result (RefusesPrimitive (Primitive.bytes tag) (PrimitiveShape.bytes tag)
            self.old self.new) }
        ensures unsupported { 30 < number_of tag → RefusesNumber self.old result self.new }
    {
        if tag.number() <= Tag::MAX_NUMBER {
            match self.copy_content_ahead(tag) {
                Ok(Some(content)) => return Ok(content),
                Ok(None) => {}
                Err(error) => return Err(error),
            }
        }
        self.fetch_tagged_bytes(tag)
    }

    /// Reads the content under this tag into a value in one step. The whole element has to be in memory before the
    /// innermost end, with a length of one byte, and the type has to make a value of its content.
    ///
    /// Else it returns `None` and does nothing. It does so too for a tag with the number 31, directly under an implicit
    /// tag, and after an error. Nothing is allocated.
    #[inline(always)]
    pub fn deserialize_short<C: ShortContent>(&mut self, tag: Tag) -> Option<C>
        ensures read { IfSome result (λ it. ReadsPrimitive (PrimitiveShape.bytes tag) self.old self.new
            (Primitive.bytes tag (C.content it))) }
        ensures short { IfSome result (λ it. length (C.content it) < 128) }
        ensures none { IfNone result (self.new ≡ self.old) }
    {
        if tag.number() > Tag::MAX_NUMBER || !self.wants_header() {
            return None;
        }
        let content = short_at_front(near(&self.reader, self.until_end), tag)?;
        let count = content.len() + 2;
        let value = C::of_short(self.alloc, content)?;
        self.reader.take_few(count);
        self.until_end -= count;
        Some(value)
    }

    // The same, the header byte by byte.
    #[cold]
    #[inline(never)]
    fn fetch_tagged_bytes(&mut self, tag: Tag) -> Result<Vec<u8>>
        ensures ok { IfOk result (λ content. ReadsPrimitive (PrimitiveShape.bytes tag) self.old self.new
            (Primitive.bytes tag content.items)) }
        ensures err { IfErr result (RefusesPrimitive (Primitive.bytes tag) (PrimitiveShape.bytes tag)
            self.old self.new) }
        ensures unsupported { 30 < number_of tag → RefusesNumber self.old result self.new }
    {
        if let Some(error) = self.earlier() {
            return Err(error);
        }
        if tag.number() > Tag::MAX_NUMBER {
            return Err(self.fail(Asn1DerError::UnsupportedValue));
        }
        let len = self.begin(tag)?;
        self.fetch_vec(len)
    }

    /// Reads an octet string (X.690, 8.7) into one vector. The errors are those of `deserialize_tagged_bytes`.
    #[inline(always)]
    pub fn deserialize_byte_buf(&mut self) -> Result<Vec<u8>>
        ensures ok { IfOk result (λ content. ReadsPrimitive (PrimitiveShape.bytes 0x04)
            self.old self.new (Primitive.bytes 0x04 content.items)) }
        ensures err { IfErr result (RefusesPrimitive (Primitive.bytes 0x04) (PrimitiveShape.bytes 0x04)
            self.old self.new) }
    {
        self.deserialize_tagged_bytes(Tag::OCTET_STRING)
    }

    /// Reads an octet string, and returns a reference to it. The errors are those of `deserialize_byte_buf`.
    pub fn deserialize_bytes(&mut self) -> Result<&[u8]>
        ensures answer { (new : State) × LendsBytes self.old new result }
        ensures* after_borrow { sem 𝓛 (Rests (the_row R.row R.ReadExt.own R.Read) self.entry
            (λ new. LendsBytes self.old new result)) }
    {
        self.content = self.deserialize_byte_buf()?;
        Ok(&self.content)
    }
}
