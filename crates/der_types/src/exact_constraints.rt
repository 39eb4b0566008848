//! Types with a constraint whose values are exactly the values that the constraint allows.
ghost use Rattle.std.specs.Prelude.{length, chars, string_bytes, refl};
ghost use Rattle.std.proofs.Common.{ap};
ghost use Rattle.picky_der_core.specs.Integer.{integer_value};
ghost use Rattle.picky_der_core.specs.Primitive.{Primitive};
ghost use Rattle.picky_der_core.specs.Tree.{ListKind, Tree};
ghost use Rattle.picky_der_ser.specs.Meaning.{list_meaning};
ghost use Rattle.der_types.specs.BitString.{bits_of};
ghost use Rattle.der_types.specs.CharacterStrings.{characters};
ghost use Rattle.der_types.specs.ExactConstraints.{Numbered, ProvedNumber, numbered_plainly, numbered_under, Sized};
ghost use Rattle.der_types.specs.ExactConstraints.{ProvedSize, sized_plainly, sized_under, counted};
ghost use Rattle.der_types.specs.ExactStrings.{IsSet, set_of, string_notation};
ghost use Rattle.der_types.specs.ContentForms as form;
ghost use Rattle.der_types.specs.ContentsFacts.{contents_of};
ghost use Rattle.der_types.specs.Notation.{Notation};

use crate::{
    BitString, Exact, ExactContents, GeneralizedTime, ImplicitPrimitive, Integer, NotatedSet,
    RestrictedString, Size, WholeNumber,
};
use picky_der_core::asn1::{Asn1SequenceOf, Asn1SetOf, ByteBuf, TaggedBytes};

/// A type of numbers in which the encoding of a value is the encoding of its number.
pub trait ExactNumber: Exact + WholeNumber {
    // What the type states about its numbers.
    ghost numbered: { Numbered Self };

    // The statement is about the type's own numbers.
    ghost exact_number: { ProvedNumber numbered Self.number Self.meaning };
}

/// A type in which the size of a value is the size that its encoding has.
pub trait ExactSize: Exact + Size {
    // What the type states about its sizes.
    ghost sized: { Sized Self };

    // The statement is about the type's own sizes.
    ghost exact_size: { ProvedSize sized Self.size Self.notation Self.meaning };
}

impl ExactNumber for Integer {
    ghost numbered = { numbered_plainly (λ it. integer_value it.content.items) (contents_of 0x02 (λ it. it.content.items))
        (λ it. refl) };

    ghost exact_number = { Prim.assumption };
}

impl<T: ExactContents + ExactNumber, const TAG: u8> ExactNumber for ImplicitPrimitive<T, TAG> {
    ghost numbered = { numbered_under T.own_contents T.meaning T.content TAG (λ it. it.0) T.numbered T.number };

    ghost exact_number = { Prim.assumption };
}

impl ExactSize for BitString {
    ghost sized = { sized_plainly (λ it. length (bits_of it.content.items)) form.BIT-STRING
        (contents_of 0x03 (λ it. it.content.items)) (λ it. refl) };

    ghost exact_size = { Prim.assumption };
}

impl ExactSize for ByteBuf {
    ghost sized = { sized_plainly (λ it. length it.0.items) (Notation.OCTET-STRING) (contents_of 0x04 (λ it. it.0.items))
        (λ it. refl) };

    ghost exact_size = { Prim.assumption };
}

impl<const TAG: u8> ExactSize for TaggedBytes<TAG> {
    ghost sized = { sized_plainly (λ it. length it.0.items) (Notation.any-content TAG) (contents_of TAG (λ it. it.0.items))
        (λ it. refl) };

    ghost exact_size = { Prim.assumption };
}

impl<T: ExactContents + ExactSize, const TAG: u8> ExactSize for ImplicitPrimitive<T, TAG> {
    ghost sized = { sized_under T.own_contents T.meaning T.content TAG (λ it. it.0) T.sized T.size T.notation };

    ghost exact_size = { Prim.assumption };
}

impl ExactSize for String {
    ghost sized = { sized_plainly (λ it. length (chars (string_bytes it))) (Notation.UTF8String)
        (λ it. Tree.primitive (Primitive.text (string_bytes it))) (λ it. refl) };

    ghost exact_size = { Prim.assumption };
}

impl ExactSize for GeneralizedTime {
    ghost sized = { sized_plainly (λ it. length it.content.items) form.GeneralizedTime (contents_of 0x18 (λ it. it.content.items))
        (λ it. refl) };

    ghost exact_size = { Prim.assumption };
}

impl<T: Exact> ExactSize for Vec<T> {
    ghost sized = { sized_plainly (λ it. length it.items) (Notation.list-of ListKind.sequence T.notation)
        (λ it. list_meaning ListKind.sequence T.meaning it.items) (λ it. counted T.meaning it.items) };

    ghost exact_size = { Prim.assumption };
}

impl<T: Exact> ExactSize for Asn1SequenceOf<T> {
    ghost sized = { sized_plainly (λ it. length it.0.items) (Notation.list-of ListKind.sequence T.notation)
        (λ it. list_meaning ListKind.sequence T.meaning it.0.items) (λ it. counted T.meaning it.0.items) };

    ghost exact_size = { Prim.assumption };
}

impl<T: Exact> ExactSize for Asn1SetOf<T> {
    ghost sized = { sized_plainly (λ it. length it.0.items) (Notation.list-of ListKind.set T.notation)
        (λ it. list_meaning ListKind.set T.meaning it.0.items) (λ it. counted T.meaning it.0.items) };

    ghost exact_size = { Prim.assumption };
}

impl<S: NotatedSet> ExactSize for RestrictedString<S> {
    ghost sized = { record {
      size = λ it. length (characters S.WIDTH it.content.items);
      notation = string_notation S.TAG S.permitted;
      meaning = contents_of S.TAG (λ it. it.content.items);
      Premise = IsSet S.permitted S.TAG S.WIDTH S.is_character;
      same = λ set it. (set_of S.permitted S.TAG S.WIDTH S.is_character set).size it.content.items;
    } };

    ghost exact_size = { Prim.assumption };
}
