//! Integers of any type, signed or not (X.690, 8.3).
ghost use Rattle.std.specs.Prelude.{◌≡◌, ℤ, None, Some, IfOk, OnOk, IfErr, refl};
ghost use Rattle.picky_der_core.specs.Primitive.{Primitive, PrimitiveShape};
ghost use Rattle.picky_der_core.specs.Integer.{content_within};
ghost use Rattle.picky_der_core.specs.Refusal.{int_error};
ghost use Rattle.picky_der_de.specs.Steps.{IsOfContent};
ghost use Rattle.picky_der_de.specs.PlainKindLaws.{short_int};

use crate::plain_kind::PlainKind;
use picky_der_core::asn1::Tag;
use picky_der_core::integer::{is_integer, number_of};
use picky_der_core::{Asn1DerError, Int, Result};

// The number of a content, or the error if the type has none.
fn int_of<N: Int>(content: &[u8]) -> Result<N>
    ensures ok { IfOk result (λ n. content.now ≡ content_within N.fits (N.number n)) }
    ensures right { OnOk result (int_error N.fits content.now ≡ None) }
    ensures fault { IfErr result (λ e. int_error N.fits content.now ≡ Some e) }
    ensures no_device { IfErr result IsOfContent }
{
    if !is_integer(content) {
        return Err(Asn1DerError::InvalidData);
    }
    match number_of(content) {
        Some(number) => Ok(number),
        None => Err(Asn1DerError::UnsupportedValue),
    }
}

// The kind of INTEGERs that are read as any integer type.
pub(crate) struct AnyInteger;

impl<N: Int> PlainKind<N> for AnyInteger {
    ghost Value = { ℤ };

    ghost view = { N.number };

    ghost meaning = { λ z. Primitive.bytes 0x02 (content_within N.fits z) };

    ghost shape = { PrimitiveShape.bytes 0x02 };

    ghost judge = { int_error N.fits };

    ghost TAG = { 0x02 };

    const TAG: Tag = Tag::INTEGER;

    fn of_content(content: &[u8]) -> Result<N> {
        int_of(content)
    }

    ghost tagged = { refl };

    ghost kind = { short_int N.fits N.narrow };
}
