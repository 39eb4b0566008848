//! Texts in UTF-8 (X.690, 8.23).
ghost use Rattle.std.specs.Prelude.{◌≡◌, ℕ, None, Some, IfOk, OnOk, IfErr, IsUtf8, encode_utf8, refl};
ghost use Rattle.picky_der_core.specs.Primitive.{Primitive, PrimitiveShape};
ghost use Rattle.picky_der_core.specs.Refusal.{text_error, character_error};
ghost use Rattle.picky_der_de.specs.Steps.{IsOfContent};
ghost use Rattle.picky_der_de.specs.PlainKindLaws.{short_character};

use crate::plain_kind::PlainKind;
use picky_der_core::asn1::Tag;
use picky_der_core::{Asn1DerError, Result};

/// Reads the contents of UTF-8 texts.
pub struct Utf8String;

impl Utf8String {
    /// The text with this content, which is borrowed. `InvalidData` if it isn't UTF-8.
    pub fn deserialize(content: &[u8]) -> Result<&str>
        ensures ok { IfOk result (λ text. (text.now ≡ content.now) × IsUtf8 content.now) }
        ensures right { OnOk result (text_error content.now ≡ None) }
        ensures fault { IfErr result (λ e. text_error content.now ≡ Some e) }
        ensures no_device { IfErr result IsOfContent }
    {
        match str::from_utf8(content) {
            Ok(text) => Ok(text),
            Err(_) => Err(Asn1DerError::InvalidData),
        }
    }
}

impl PlainKind<char> for Utf8String {
    ghost Value = { ℕ };

    ghost view = { λ c. c };

    ghost meaning = { λ c. Primitive.text (encode_utf8 c) };

    ghost shape = { PrimitiveShape.character };

    ghost judge = { character_error };

    ghost TAG = { 0x0C };

    const TAG: Tag = Tag::UTF8_STRING;

    // The character that is the whole text.
    fn of_content(content: &[u8]) -> Result<char> {
        let mut characters = Utf8String::deserialize(content)?.chars();
        let Some(first) = characters.next() else {
            return Err(Asn1DerError::UnsupportedValue);
        };
        match characters.next() {
            None => Ok(first),
            Some(_) => Err(Asn1DerError::InvalidData),
        }
    }

    ghost tagged = { refl };

    ghost kind = { short_character };
}
