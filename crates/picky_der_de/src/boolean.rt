//! Bools (X.690, 8.2 and 11.1).
ghost use Rattle.std.specs.Prelude.{◌≡◌, Bool, None, Some, IfOk, OnOk, IfErr, refl};
ghost use Rattle.picky_der_core.specs.Primitive.{Primitive, PrimitiveShape, boolean_content};
ghost use Rattle.picky_der_core.specs.Refusal.{boolean_error};
ghost use Rattle.picky_der_de.specs.Steps.{IsOfContent};
ghost use Rattle.picky_der_de.specs.PlainKindLaws.{short_boolean};

use crate::plain_kind::PlainKind;
use picky_der_core::asn1::Tag;
use picky_der_core::{Asn1DerError, Result};

/// Reads the contents of BOOLEANs.
pub struct Boolean;

impl Boolean {
    /// The bool with this content: `00` is false, and `FF` is true. `TruncatedData` if the content is empty.
    /// `InvalidData` for more than one byte, and for any other byte.
    pub fn deserialize(content: &[u8]) -> Result<bool>
        ensures ok { IfOk result (λ value. content.now ≡ boolean_content value) }
        ensures right { OnOk result (boolean_error content.now ≡ None) }
        ensures fault { IfErr result (λ e. boolean_error content.now ≡ Some e) }
        ensures no_device { IfErr result IsOfContent }
    {
        <Boolean as PlainKind<bool>>::of_content(content)
    }
}

impl PlainKind<bool> for Boolean {
    ghost Value = { Bool };

    ghost view = { λ b. b };

    ghost meaning = { Primitive.boolean };

    ghost shape = { PrimitiveShape.boolean };

    ghost judge = { boolean_error };

    ghost TAG = { 0x01 };

    const TAG: Tag = Tag::BOOLEAN;

    fn of_content(content: &[u8]) -> Result<bool> {
        match content {
            [] => Err(Asn1DerError::TruncatedData),
            [0x00] => Ok(false),
            [0xFF] => Ok(true),
            _ => Err(Asn1DerError::InvalidData),
        }
    }

    ghost tagged = { refl };

    ghost kind = { short_boolean };
}
