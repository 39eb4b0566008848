//! Texts and characters.
ghost use Rattle.std.specs.Prelude.{IfOk, IfErr, encode_utf8, string_bytes};
ghost use Rattle.std.specs.Borrow.{sem};
ghost use Rattle.std.specs.Io.BufRead.{Rests};
ghost use Rattle.picky_der_core.specs.Primitive.{Primitive, PrimitiveShape};
ghost use Rattle.picky_der_de.specs.Steps.{UsesNoMemory};
ghost use Rattle.picky_der_de.specs.State.{State};
ghost use Rattle.picky_der_de.specs.Lending.{LendsText};
ghost use Rattle.picky_der_de.specs.contracts.deserializer.Deserializer.{the_row};
ghost use Rattle.picky_der_de.specs.Reading.{ReadsPrimitive, RefusesPrimitive};

use super::Deserializer;
use crate::Utf8String;
use picky_der_core::asn1::Tag;
use picky_der_core::misc::ReadExt;
use picky_der_core::{Asn1DerError, Result};

impl<R: ReadExt> Deserializer<R> {
    /// Reads a text of one character (X.690, 8.23).
    ///
    /// `InvalidData` for another tag, for a content that isn't UTF-8, and for more than one character.
    /// `UnsupportedValue` for an empty content. Any other error is that of a header or of an end, or the reader's I/O
    /// error.
    pub fn deserialize_char(&mut self) -> Result<char>
        ensures ok { IfOk result (λ value. ReadsPrimitive PrimitiveShape.character self.old self.new
            (Primitive.text (encode_utf8 value))) }
        ensures err { IfErr result (RefusesPrimitive (λ c. Primitive.text (encode_utf8 c))
            PrimitiveShape.character self.old self.new) }
        ensures memory { IfErr result (UsesNoMemory self.old self.new) }
    {
        self.read_plain::<Utf8String, char>()
    }

    /// Reads a text (X.690, 8.23) into one string.
    ///
    /// `InvalidData` for another tag, and for a content that isn't UTF-8. `OutOfMemory` if an allocation fails. Any
    /// other error is that of a header or of an end, or the reader's I/O error.
    pub fn deserialize_string(&mut self) -> Result<String>
        ensures ok { IfOk result (λ text. ReadsPrimitive PrimitiveShape.text self.old self.new
            (Primitive.text (string_bytes text))) }
        ensures err { IfErr result (RefusesPrimitive Primitive.text PrimitiveShape.text self.old self.new) }
    {
        let len = self.begin(Tag::UTF8_STRING)?;
        let content = self.fetch_vec(len)?;
        match String::from_utf8(content) {
            Ok(text) => Ok(text),
            Err(_) => Err(self.fail(Asn1DerError::InvalidData)),
        }
    }

    /// Reads a text, and returns a reference to it. The errors are those of `deserialize_string`.
    pub fn deserialize_str(&mut self) -> Result<&str>
        ensures answer { (new : State) × LendsText self.old new result }
        ensures* after_borrow { sem 𝓛 (Rests (the_row R.row R.ReadExt.own R.Read) self.entry
            (λ new. LendsText self.old new result)) }
    {
        self.text = self.deserialize_string()?;
        Ok(self.text.as_str())
    }
}
