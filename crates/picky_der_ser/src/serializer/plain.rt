//! Plain values, written.
ghost use Rattle.std.specs.Prelude.{◌≡◌, ◌≢◌, [], None, encode_utf8};
ghost use Rattle.picky_der_core.specs.Primitive.{boolean_content, Primitive};
ghost use Rattle.picky_der_core.specs.Tag.{number_of, IsTagNumber};
ghost use Rattle.picky_der_core.specs.Integer.{integer_tree, int_tree};
ghost use Rattle.picky_der_ser.specs.Headers.{tree_of, HasNumber};
ghost use Rattle.picky_der_ser.specs.Calls.{WritesPlain, WritesPrimitive};

use super::Serializer;
use crate::Header;
use crate::header::push_headers;
use crate::integer::UnsignedContent;
use crate::sink::{put_element, put_headed};
use picky_der_core::asn1::Tag;
use picky_der_core::integer::IntContent;
use picky_der_core::misc::WriteExt;
use picky_der_core::{Asn1DerError, Int, Result};

// The content of a bool.
fn boolean_content(value: bool) -> [u8; 1]
    ensures { result ≡ boolean_content value }
{
    if value { [0xFF] } else { [0x00] }
}

impl<W: WriteExt> Serializer<W> {
    // Writes a plain element in the open wrappers. Mostly it is a short one in a level and in no wrapper.
    #[inline(always)]
    pub(crate) fn write_plain(&mut self, tag: Tag, content: &[u8]) -> Result<usize>
        requires { IsTagNumber (number_of tag) }
        ensures { WritesPrimitive W.WriteExt.own (Primitive.bytes tag content.now) self.old result self.new }
    {
        if self.failed.is_none() && self.levels.append_short(tag, content) {
            return Ok(2 + content.len());
        }
        self.write_any_plain(tag, content)
    }

    // Writes a plain element, in a level or to the sink.
    #[cold]
    #[inline(never)]
    fn write_any_plain(&mut self, tag: Tag, content: &[u8]) -> Result<usize>
        requires { IsTagNumber (number_of tag) }
        ensures { WritesPrimitive W.WriteExt.own (Primitive.bytes tag content.now) self.old result self.new }
    {
        if let Some(error) = self.earlier() {
            return Err(error);
        }
        if self.levels.is_inside() {
            return self.append_content(Header::Tagged(tag), content);
        }
        if self.levels.is_bare() {
            return self.put_plain(tag, content);
        }
        self.put_wrapped(Header::Tagged(tag), content)
    }

    // Adds a content under this header to the level of which a member is being written.
    pub(crate) fn append_content(&mut self, header: Header, content: &[u8]) -> Result<usize>
        requires number { HasNumber header }
        requires had_not_failed { self.old.failed ≡ None }
        requires inside { self.old.inside ≢ None }
        ensures { WritesPlain W.WriteExt.own (tree_of header content.now) self.old result self.new }
    {
        match self.levels.append(header, content) {
            Ok(count) => {
                self.levels.close_wrapper();
                Ok(count)
            }
            Err(_) => Err(self.fail(Asn1DerError::OutOfMemory)),
        }
    }

    // Writes a plain element to the sink.
    fn put_plain(&mut self, tag: Tag, content: &[u8]) -> Result<usize>
        requires number { IsTagNumber (number_of tag) }
        requires had_not_failed { self.old.failed ≡ None }
        requires outside { self.old.inside ≡ None }
        requires bare { self.old.around ≡ [] }
        ensures { WritesPrimitive W.WriteExt.own (Primitive.bytes tag content.now) self.old result self.new }
    {
        self.levels.give_up();
        let outcome = put_element(&mut self.sink, tag, content);
        self.settle(outcome)
    }

    // Writes a content under this header in the open wrappers to the sink.
    pub(crate) fn put_wrapped(&mut self, header: Header, content: &[u8]) -> Result<usize>
        requires number { HasNumber header }
        requires had_not_failed { self.old.failed ≡ None }
        requires outside { self.old.inside ≡ None }
        requires wrapped { self.old.around ≢ [] }
        ensures { WritesPlain W.WriteExt.own (tree_of header content.now) self.old result self.new }
    {
        let around = self.levels.around();
        let mut headers = Vec::new(self.alloc);
        let Ok(()) = push_headers(&mut headers, around, header, content.len()) else {
            return Err(self.fail(Asn1DerError::OutOfMemory));
        };
        let outcome = put_headed(&mut self.sink, &headers, content);
        self.settle(outcome)
    }

    // Writes an unsigned number of any length.
    #[inline(never)]
    fn write_unsigned(&mut self, number: u128) -> Result<usize>
        ensures { WritesPrimitive W.WriteExt.own (Primitive.unsigned number) self.old result self.new }
    {
        let digits = UnsignedContent::of(number);
        self.write_plain(Tag::INTEGER, digits.as_slice())
    }

    /// Writes a BOOLEAN (X.690, 8.2 and 11.1). Outside wrappers, sequences and application tags nothing is allocated,
    /// and each error is the sink's. The same holds for the other calls of plain values.
    #[inline(always)]
    pub fn serialize_bool(&mut self, value: bool) -> Result<usize>
        ensures { WritesPrimitive W.WriteExt.own (Primitive.boolean value) self.old result self.new }
    {
        self.write_plain(Tag::BOOLEAN, &boolean_content(value))
    }

    /// Writes an unsigned number of 8 bits (X.690, 8.3).
    #[inline(always)]
    pub fn serialize_u8(&mut self, value: u8) -> Result<usize>
        ensures { WritesPrimitive W.WriteExt.own (Primitive.unsigned value) self.old result self.new }
    {
        self.serialize_u128(u128::from(value))
    }

    /// Writes a number of 16 bits.
    #[inline(always)]
    pub fn serialize_u16(&mut self, value: u16) -> Result<usize>
        ensures { WritesPrimitive W.WriteExt.own (Primitive.unsigned value) self.old result self.new }
    {
        self.serialize_u128(u128::from(value))
    }

    /// Writes a number of 32 bits.
    #[inline(always)]
    pub fn serialize_u32(&mut self, value: u32) -> Result<usize>
        ensures { WritesPrimitive W.WriteExt.own (Primitive.unsigned value) self.old result self.new }
    {
        self.serialize_u128(u128::from(value))
    }

    /// Writes a number of 64 bits.
    #[inline(always)]
    pub fn serialize_u64(&mut self, value: u64) -> Result<usize>
        ensures { WritesPrimitive W.WriteExt.own (Primitive.unsigned value) self.old result self.new }
    {
        self.serialize_u128(u128::from(value))
    }

    /// Writes a number of 128 bits.
    #[inline(always)]
    pub fn serialize_u128(&mut self, value: u128) -> Result<usize>
        ensures { WritesPrimitive W.WriteExt.own (Primitive.unsigned value) self.old result self.new }
    {
        // Mostly the content is one byte.
        if value < 0x80 {
            return self.write_plain(Tag::INTEGER, &[value as u8]);
        }
        self.write_unsigned(value)
    }

    /// Writes a number of an integer type, signed or not, as an INTEGER (X.690, 8.3).
    pub fn serialize_int<N: Int>(&mut self, number: N) -> Result<usize>
        ensures written { WritesPlain W.WriteExt.own (integer_tree (N.number number))
            self.old result self.new }
        ensures meant { WritesPlain W.WriteExt.own (int_tree N.fits (N.number number))
            self.old result self.new }
    {
        let content = IntContent::of(number.into_bits());
        self.write_plain(Tag::INTEGER, content.as_slice())
    }

    /// Writes an octet string (X.690, 8.7).
    pub fn serialize_bytes(&mut self, bytes: &[u8]) -> Result<usize>
        ensures { WritesPrimitive W.WriteExt.own (Primitive.bytes 0x04 bytes.now) self.old result self.new }
    {
        self.write_plain(Tag::OCTET_STRING, bytes)
    }

    /// Writes a null (X.690, 8.8).
    #[inline(always)]
    pub fn serialize_unit(&mut self) -> Result<usize>
        ensures { WritesPrimitive W.WriteExt.own Primitive.null self.old result self.new }
    {
        self.write_plain(Tag::NULL, &[])
    }

    /// Writes a null for a struct without fields. The name isn't written.
    pub fn serialize_unit_struct(&mut self, _name: &'static str) -> Result<usize>
        ensures { WritesPrimitive W.WriteExt.own Primitive.null self.old result self.new }
    {
        self.serialize_unit()
    }

    /// Writes a character, as the text of only this character (X.690, 8.23).
    pub fn serialize_char(&mut self, value: char) -> Result<usize>
        ensures { WritesPrimitive W.WriteExt.own
            (Primitive.text (encode_utf8 value)) self.old result self.new }
    {
        let mut room = [0; 4];
        self.serialize_str(value.encode_utf8(&mut room))
    }

    /// Writes a text in UTF-8 (X.690, 8.23).
    pub fn serialize_str(&mut self, value: &str) -> Result<usize>
        ensures { WritesPrimitive W.WriteExt.own (Primitive.text value.now) self.old result self.new }
    {
        self.write_plain(Tag::UTF8_STRING, value.as_bytes())
    }

    /// Writes a content under this tag, unchecked.
    ///
    /// `UnsupportedValue` for a tag with the number 31, which would announce the long form (X.690, 8.1.2.4): nothing is
    /// written or allocated then. Only the earlier error of a serializer that has failed comes before it.
    pub fn serialize_tagged_bytes(&mut self, tag: Tag, content: &[u8]) -> Result<usize>
        ensures { WritesPrimitive W.WriteExt.own (Primitive.bytes tag content.now) self.old result self.new }
    {
        if tag.number() <= Tag::MAX_NUMBER {
            return self.write_plain(tag, content);
        }
        match self.earlier() {
            Some(error) => Err(error),
            None => Err(self.fail(Asn1DerError::UnsupportedValue)),
        }
    }
}
