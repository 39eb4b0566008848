//! The sizes of values.
ghost use Rattle.std.proofs.Common.{ap};
ghost use Rattle.std.specs.Prelude.{◌≡◌, ℕ, length, chars, string_bytes};
ghost use Rattle.picky_der_core.specs.Tree.{ListKind};
ghost use Rattle.der_types.specs.BitString.{bits_of};
ghost use Rattle.der_types.specs.CharacterStrings.{characters};
ghost use Rattle.der_types.specs.Constraints.{tree_bytes};
ghost use Rattle.der_types.specs.ConstraintLaws.{same_length};
ghost use Rattle.der_types.specs.ExactConstraints.{same_meanings};
ghost use Rattle.der_types.specs.PrimitiveForm.{primitive_form};

use crate::{
    BitString, CharacterSet, ExactContents, GeneralizedTime, ImplicitPrimitive, RestrictedString,
};
use picky_der_core::asn1::{Asn1SequenceOf, Asn1SetOf, ByteBuf, TaggedBytes};
use picky_der_ser::Serialize;

/// A type whose values have a size, as size constraints count it (X.680, 51.5.3).
pub trait Size: Serialize {
    // The size of a value.
    ghost size: { Self → ℕ };

    /// Returns how many bits, bytes, characters or members the value has. It is a `u128` because the number of bits may
    /// be above `u64::MAX`.
    fn size(&self) -> u128
        ensures { result ≡ size self.now };

    // The encoding alone decides the size.
    ghost determined: { (x y : Self) → Self.meaning x ≡ Self.meaning y → size x ≡ size y };
}

// How many characters a text has.
fn char_count(text: &str) -> usize
    ensures { result ≡ length (chars text.now) }
{
    text.chars().count()
}

impl Size for BitString {
    ghost size = { λ it. length (bits_of it.content.items) };

    fn size(&self) -> u128 {
        self.len()
    }

    ghost determined = { λ x y e. ap (λ t. length (bits_of (tree_bytes t))) e };
}

impl Size for ByteBuf {
    ghost size = { λ it. length it.0.items };

    fn size(&self) -> u128 {
        self.0.len() as u128
    }

    ghost determined = { λ x y e. ap (λ t. length (tree_bytes t)) e };
}

impl<const TAG: u8> Size for TaggedBytes<TAG> {
    ghost size = { λ it. length it.0.items };

    fn size(&self) -> u128 {
        self.0.len() as u128
    }

    ghost determined = { λ x y e. ap (λ t. length (tree_bytes t)) e };
}

// The size of a content is the same under another tag.
impl<T: ExactContents + Size, const TAG: u8> Size for ImplicitPrimitive<T, TAG> {
    ghost size = { λ it. T.size it.0 };

    fn size(&self) -> u128 {
        self.0.size()
    }

    ghost determined = { λ x y e. T.determined x.0 y.0 (same_meanings T.own_contents T.exact_contents (primitive_form TAG) x.0 y.0 e) };
}

impl Size for String {
    ghost size = { λ it. length (chars (string_bytes it)) };

    fn size(&self) -> u128 {
        char_count(self.as_str()) as u128
    }

    ghost determined = { λ x y e. ap (λ t. length (chars (tree_bytes t))) e };
}

impl<S: CharacterSet> Size for RestrictedString<S> {
    ghost size = { λ it. length (characters S.WIDTH it.content.items) };

    fn size(&self) -> u128 {
        self.len() as u128
    }

    ghost determined = { λ x y e. ap (λ t. length (characters S.WIDTH (tree_bytes t))) e };
}

// It is a string of characters of one byte each (X.680, 46.3).
impl Size for GeneralizedTime {
    ghost size = { λ it. length it.content.items };

    fn size(&self) -> u128 {
        self.content().len() as u128
    }

    ghost determined = { λ x y e. ap (λ t. length (tree_bytes t)) e };
}

impl<T: Serialize> Size for Vec<T> {
    ghost size = { λ it. length it.items };

    fn size(&self) -> u128 {
        self.len() as u128
    }

    ghost determined = { λ x y e. same_length ListKind.sequence T.meaning x.items y.items e };
}

impl<T: Serialize> Size for Asn1SequenceOf<T> {
    ghost size = { λ it. length it.0.items };

    fn size(&self) -> u128 {
        self.0.len() as u128
    }

    ghost determined = { λ x y e. same_length ListKind.sequence T.meaning x.0.items y.0.items e };
}

impl<T: Serialize> Size for Asn1SetOf<T> {
    ghost size = { λ it. length it.0.items };

    fn size(&self) -> u128 {
        self.0.len() as u128
    }

    ghost determined = { λ x y e. same_length ListKind.set T.meaning x.0.items y.0.items e };
}
