//! Unsigned integers (X.690, 8.3).
ghost use Rattle.std.specs.Prelude.{◌≡◌, ◌≤◌, ℕ, length, None, Some, IfOk, OnOk, IfErr, refl};
ghost use Rattle.std.specs.Int.Digits.{number_from_digits};
ghost use Rattle.picky_der_core.specs.Primitive.{Primitive, PrimitiveShape, unsigned_content};
ghost use Rattle.picky_der_core.specs.Refusal.{unsigned_error, number_error};
ghost use Rattle.picky_der_de.specs.Steps.{IsOfContent};
ghost use Rattle.picky_der_de.specs.PlainKindLaws.{short_unsigned};

use crate::plain_kind::PlainKind;
use picky_der_core::asn1::Tag;
use picky_der_core::{Asn1DerError, Result, UInt};

// The bytes of a number, without a 00 that only keeps it from being negative.
fn digits_of(content: &[u8]) -> Result<&[u8]>
    ensures ok { IfOk result (λ digits. (most : ℕ)
        → unsigned_error most content.now ≡ number_error most digits.now) }
    ensures same { IfOk result (λ digits. number_from_digits 256 digits.now
        ≡ number_from_digits 256 content.now) }
    ensures err { IfErr result (λ e. (most : ℕ) → unsigned_error most content.now ≡ Some e) }
    ensures no_device { IfErr result IsOfContent }
{
    match content {
        [] => Err(Asn1DerError::TruncatedData),
        [0x80..=0xFF, ..] => Err(Asn1DerError::UnsupportedValue),
        [0x00, 0x00..=0x7F, ..] => Err(Asn1DerError::InvalidData),
        [0x00, digits @ ..] if !digits.is_empty() => Ok(digits),
        _ => Ok(content),
    }
}

// The number of at most sixteen bytes.
fn value_of(digits: &[u8]) -> u128
    requires { length digits.now ≤ 16 }
    ensures { result ≡ number_from_digits 256 digits.now }
{
    let mut number = 0;
    for digit in digits {
        number = number * 256 + u128::from(*digit);
    }
    number
}

/// Reads the contents of INTEGERs into unsigned types.
pub struct UnsignedInteger;

impl UnsignedInteger {
    /// The number with this content.
    ///
    /// `TruncatedData` if the content is empty. `UnsupportedValue` for a negative number, for one of more than 16
    /// bytes, and for one past the type's greatest. `InvalidData` for a needless 00 in front.
    pub fn deserialize<T: UInt>(content: &[u8]) -> Result<T>
        ensures ok { IfOk result (λ value. content.now ≡ unsigned_content (T.number value)) }
        ensures right { OnOk result (unsigned_error T.greatest content.now ≡ None) }
        ensures fault { IfErr result (λ e. unsigned_error T.greatest content.now ≡ Some e) }
        ensures no_device { IfErr result IsOfContent }
    {
        <UnsignedInteger as PlainKind<T>>::of_content(content)
    }
}

impl<T: UInt> PlainKind<T> for UnsignedInteger {
    ghost Value = { ℕ };

    ghost view = { T.number };

    ghost meaning = { Primitive.unsigned };

    ghost shape = { PrimitiveShape.unsigned T.greatest };

    ghost judge = { unsigned_error T.greatest };

    ghost TAG = { 0x02 };

    const TAG: Tag = Tag::INTEGER;

    fn of_content(content: &[u8]) -> Result<T> {
        // Most numbers have one byte, which needs no other test.
        if let [digit @ 0x00..=0x7F] = content {
            return T::from_u128(u128::from(*digit));
        }
        let digits = digits_of(content)?;
        if digits.len() > 16 {
            return Err(Asn1DerError::UnsupportedValue);
        }
        T::from_u128(value_of(digits))
    }

    ghost tagged = { refl };

    ghost kind = { short_unsigned T.greatest };
}
