//! Null (X.690, 8.8).
ghost use Rattle.std.specs.Prelude.{◌≡◌, [], None, Some, OnOk, IfErr, refl};
ghost use Rattle.picky_der_core.specs.Primitive.{Primitive, PrimitiveShape};
ghost use Rattle.picky_der_core.specs.Refusal.{null_error};
ghost use Rattle.picky_der_de.specs.Steps.{IsOfContent};
ghost use Rattle.picky_der_de.specs.PlainKindLaws.{short_null};

use crate::plain_kind::PlainKind;
use picky_der_core::asn1::Tag;
use picky_der_core::{Asn1DerError, Result};

/// Reads the contents of NULLs.
pub struct Null;

impl Null {
    /// Checks the content of a NULL, which is empty. `InvalidData` for any other.
    pub fn deserialize(content: &[u8]) -> Result<()>
        ensures ok { OnOk result (content.now ≡ []) }
        ensures right { OnOk result (null_error content.now ≡ None) }
        ensures fault { IfErr result (λ e. null_error content.now ≡ Some e) }
        ensures no_device { IfErr result IsOfContent }
    {
        <Null as PlainKind<()>>::of_content(content)
    }
}

impl PlainKind<()> for Null {
    ghost Value = { Unit {0} };

    ghost view = { λ v. v };

    ghost meaning = { λ _. Primitive.null };

    ghost shape = { PrimitiveShape.null };

    ghost judge = { null_error };

    ghost TAG = { 0x05 };

    const TAG: Tag = Tag::NULL;

    fn of_content(content: &[u8]) -> Result<()> {
        match content {
            [] => Ok(()),
            _ => Err(Asn1DerError::InvalidData),
        }
    }

    ghost tagged = { refl };

    ghost kind = { short_null };
}
