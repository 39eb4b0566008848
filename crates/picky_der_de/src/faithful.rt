//! Types whose `==` is sameness of encodings: values that are equal by it mean the same tree.
ghost use Rattle.std.specs.Prelude.{nat_eq, not, true, encode_utf8, string_bytes, refl};
ghost use Rattle.std.specs.Option.{option_eq};
ghost use mathlib.Core.Bool.{beq};
ghost use lib.Dec.{eqb};
ghost use lib.Pointwise.{pointwise};
ghost use Rattle.picky_der_core.specs.declared.asn1.wrapper.Wrapper.TheVariants as wrapper;
ghost use Rattle.picky_der_core.specs.Primitive.{Primitive};
ghost use Rattle.picky_der_core.specs.Tree.{ListKind, Tree, Trees};
ghost use Rattle.picky_der_ser.specs.Meaning.{array_meaning, list_meaning, maybe_more, option_meaning};
ghost use Rattle.picky_der_de.specs.FourChoices.{one_by_one};
ghost use Rattle.picky_der_de.specs.Faithful.{Sameness, ProvedSameness, MemberSameness, ProvedMemberSameness};
ghost use Rattle.picky_der_de.specs.Faithful.{MembersSameness, ProvedMembersSameness, plain_sameness, sameness_by};
ghost use Rattle.picky_der_de.specs.Faithful.{no_members};
ghost use Rattle.picky_der_de.specs.Faithful.{sameness_as, wrapped_sameness, member_by};
ghost use Rattle.picky_der_de.specs.Faithful.{this_or_other_sameness, this_or_other_by, boolean_respects};
ghost use Rattle.picky_der_de.specs.Faithful.{bytes_respect};
ghost use Rattle.picky_der_de.specs.Faithful.{character_respects, option_respects, list_respects, array_respects};
ghost use Rattle.picky_der_de.specs.Faithful.{DefaultSameness, ProvedDefaultSameness, plain_default, default_as};
ghost use Rattle.picky_der_de.specs.Faithful.{default_member, boolean_alike, always_respects, perhaps_respects};

use crate::{
    Alternatives, Begins, Choice4, Deserialize, DeserializeMember, DeserializeMembers, NoneOf,
    OneOf,
};
use picky_der_core::asn1::{
    Asn1SequenceOf, Asn1SetOf, BitStringAsn1Container, ByteBuf, ExplicitContextTag,
    ImplicitContextTag, ImplicitList, OctetStringAsn1Container, TaggedBytes,
};
use picky_der_ser::{DefaultOf, Defaulted, Element, False, List, Optional, Serialize, True};

/// A type whose equal values have the same encoding. Of readable values the converse holds for each type, so that `==`
/// of such a type is sameness of encodings.
///
/// A type whose `==` ignores something that is written, such as the case of letters, lacks this trait.
pub trait Faithful: Deserialize {
    // What the type says of its equal values, and what is owed for it.
    ghost sameness: { Sameness Self };

    // What is owed, and that it is said of the type's own `==` and meaning.
    ghost respects: { ProvedSameness sameness Self.eq Self.meaning };
}

/// A member of a struct of which equal values are written alike.
pub trait FaithfulMember: DeserializeMember {
    // What the member says of its equal values, and what is owed for it.
    ghost sameness: { MemberSameness Self };

    // What is owed, and that it is said of the member's own `==` and of what is before others.
    ghost respects: { ProvedMemberSameness sameness Self.facts.eq Self.prepend };
}

/// A default of members of which equal values are written alike: both are the default, or neither is.
pub trait FaithfulDefault<T: Serialize + PartialEq>: DefaultOf<T> {
    // Which values are the default, by which `==`, and what is owed for it.
    ghost sameness: { DefaultSameness T };

    // What is owed, and that it is said of the default and of the type's own `==`.
    ghost respects: { ProvedDefaultSameness sameness T.eq Self.left_out };
}

/// Members of a sequence of which equal values are written alike.
pub trait FaithfulMembers: DeserializeMembers {
    // What the members say of values that are equal one by one, and what is owed for it.
    ghost sameness: { MembersSameness Self };

    // What is owed, and that it is said of the members' own tests and meaning.
    ghost respects: { ProvedMembersSameness sameness Self.facts.tests Self.members };
}

/// Alternatives of a choice of which equal values are written alike.
pub trait FaithfulAlternatives: Alternatives {
    // What the alternatives say of their equal values, and what is owed for it.
    ghost sameness: { Sameness Self };

    // What is owed, and that it is said of the alternatives' own `==` and meaning.
    ghost respects: { ProvedSameness sameness Self.facts.eq Self.chosen };
}

impl Faithful for bool {
    ghost sameness = { plain_sameness beq (λ it. Tree.primitive (Primitive.boolean it)) boolean_respects };

    ghost respects = { Prim.assumption };
}

impl Faithful for ByteBuf {
    ghost sameness = { plain_sameness (λ x y. pointwise eqb x.0.items y.0.items)
        (λ it. Tree.primitive (Primitive.bytes 0x04 it.0.items))
        (bytes_respect (λ s. Tree.primitive (Primitive.bytes 0x04 s)) (λ it. it.0.items)) };

    ghost respects = { Prim.assumption };
}

impl<const TAG: u8> Faithful for TaggedBytes<TAG> {
    ghost sameness = { plain_sameness (λ x y. pointwise eqb x.0.items y.0.items)
        (λ it. Tree.primitive (Primitive.bytes TAG it.0.items))
        (bytes_respect (λ s. Tree.primitive (Primitive.bytes TAG s)) (λ it. it.0.items)) };

    ghost respects = { Prim.assumption };
}

impl Faithful for char {
    ghost sameness = { plain_sameness nat_eq (λ it. Tree.primitive (Primitive.text (encode_utf8 it))) character_respects };

    ghost respects = { Prim.assumption };
}

impl Faithful for String {
    ghost sameness = { plain_sameness (λ x y. pointwise eqb (string_bytes x) (string_bytes y))
        (λ it. Tree.primitive (Primitive.text (string_bytes it)))
        (bytes_respect (λ s. Tree.primitive (Primitive.text s)) string_bytes) };

    ghost respects = { Prim.assumption };
}

impl Faithful for () {
    ghost sameness = { plain_sameness (λ _ _. true) (λ _. Tree.primitive Primitive.null) (λ x y h. refl) };

    ghost respects = { Prim.assumption };
}

impl<T: Faithful> Faithful for Option<T> {
    ghost sameness = { sameness_by T.sameness T.eq T.meaning (option_eq T.eq) (option_meaning T.meaning) (λ r. option_respects r) };

    ghost respects = { Prim.assumption };
}

impl<T: Faithful> Faithful for Vec<T> {
    ghost sameness = { sameness_by T.sameness T.eq T.meaning (λ x y. pointwise T.eq x.items y.items)
        (λ it. list_meaning ListKind.sequence T.meaning it.items)
        (λ r. list_respects r (λ it. it.items) ListKind.sequence) };

    ghost respects = { Prim.assumption };
}

impl<T: Faithful> Faithful for Asn1SequenceOf<T> {
    ghost sameness = { sameness_by T.sameness T.eq T.meaning (λ x y. pointwise T.eq x.0.items y.0.items)
        (λ it. list_meaning ListKind.sequence T.meaning it.0.items)
        (λ r. list_respects r (λ it. it.0.items) ListKind.sequence) };

    ghost respects = { Prim.assumption };
}

impl<T: Faithful> Faithful for Asn1SetOf<T> {
    ghost sameness = { sameness_by T.sameness T.eq T.meaning (λ x y. pointwise T.eq x.0.items y.0.items)
        (λ it. list_meaning ListKind.set T.meaning it.0.items) (λ r. list_respects r (λ it. it.0.items) ListKind.set) };

    ghost respects = { Prim.assumption };
}

impl<T: Faithful + Copy + Default, const N: usize> Faithful for [T; N] {
    ghost sameness = { sameness_by T.sameness T.eq T.meaning (λ x y. pointwise T.eq x y) (array_meaning N T.meaning)
        (λ r. array_respects r (λ it. it) N) };

    ghost respects = { Prim.assumption };
}

impl<T: Faithful> Faithful for OctetStringAsn1Container<T> {
    ghost sameness = { wrapped_sameness T.sameness T.eq T.meaning wrapper.OctetContainer (λ it. it.0) };

    ghost respects = { Prim.assumption };
}

impl<T: Faithful> Faithful for BitStringAsn1Container<T> {
    ghost sameness = { wrapped_sameness T.sameness T.eq T.meaning wrapper.BitContainer (λ it. it.0) };

    ghost respects = { Prim.assumption };
}

impl<T: Faithful, const N: u8> Faithful for ExplicitContextTag<T, N> {
    ghost sameness = { wrapped_sameness T.sameness T.eq T.meaning (wrapper.Explicit N) (λ it. it.0) };

    ghost respects = { Prim.assumption };
}

impl<T: Faithful, const N: u8> Faithful for ImplicitContextTag<T, N> {
    ghost sameness = { wrapped_sameness T.sameness T.eq T.meaning (wrapper.Implicit N) (λ it. it.0) };

    ghost respects = { Prim.assumption };
}

impl<T: List + Faithful, const TAG: u8> Faithful for ImplicitList<T, TAG> {
    ghost sameness = { wrapped_sameness T.sameness T.eq T.meaning (wrapper.ImplicitList TAG) (λ it. it.0) };

    ghost respects = { Prim.assumption };
}

impl<T: Faithful> FaithfulMember for T {
    ghost sameness = { member_by T.sameness T.eq T.meaning T.eq (λ value. Trees.more (T.meaning value))
        (λ r. always_respects r (λ value. value)) };

    ghost respects = { Prim.assumption };
}

impl<T: Faithful> FaithfulMember for Element<T> {
    ghost sameness = { member_by T.sameness T.eq T.meaning (λ x y. T.eq x.0 y.0) (λ element. Trees.more (T.meaning element.0))
        (λ r. always_respects r (λ element. element.0)) };

    ghost respects = { Prim.assumption };
}

impl<T: Faithful + Begins> FaithfulMember for Optional<T> {
    ghost sameness = { member_by T.sameness T.eq T.meaning (λ x y. option_eq T.eq x.0 y.0) (λ member. maybe_more T.meaning member.0)
        (λ r. perhaps_respects r (λ member. member.0)) };

    ghost respects = { Prim.assumption };
}

impl<T: Faithful + Begins, D: FaithfulDefault<T>> FaithfulMember for Defaulted<T, D> {
    ghost sameness = { default_member T.sameness T.eq T.meaning D.sameness D.left_out (λ member. member.value) };

    ghost respects = { Prim.assumption };
}

impl FaithfulDefault<bool> for False {
    ghost sameness = { plain_default beq not (boolean_alike not) };

    ghost respects = { Prim.assumption };
}

impl FaithfulDefault<bool> for True {
    ghost sameness = { plain_default beq (λ value. value) (boolean_alike (λ value. value)) };

    ghost respects = { Prim.assumption };
}

impl<T: Serialize + PartialEq, D: FaithfulDefault<T>, const N: u8> FaithfulDefault<
    ExplicitContextTag<T, N>,
> for D {
    ghost sameness = { default_as T.eq D.left_out D.sameness (λ tagged. tagged.0) };

    ghost respects = { Prim.assumption };
}

impl<T: Serialize + PartialEq, D: FaithfulDefault<T>, const N: u8> FaithfulDefault<
    ImplicitContextTag<T, N>,
> for D {
    ghost sameness = { default_as T.eq D.left_out D.sameness (λ tagged. tagged.0) };

    ghost respects = { Prim.assumption };
}

impl<T: List + PartialEq, D: FaithfulDefault<T>, const TAG: u8> FaithfulDefault<
    ImplicitList<T, TAG>,
> for D {
    ghost sameness = { default_as T.eq D.left_out D.sameness (λ tagged. tagged.0) };

    ghost respects = { Prim.assumption };
}

impl FaithfulMembers for () {
    ghost sameness = { no_members };

    ghost respects = { Prim.assumption };
}

impl FaithfulAlternatives for NoneOf {
    ghost sameness = { plain_sameness ⟦<NoneOf as Alternatives>⟧.facts.eq ⟦<NoneOf as Alternatives>⟧.chosen (λ v. elim v [ ]) };

    ghost respects = { Prim.assumption };
}

impl<A: Begins + Faithful, B: FaithfulAlternatives> FaithfulAlternatives for OneOf<A, B> {
    ghost sameness = { this_or_other_sameness A.sameness A.eq A.meaning B.sameness B.facts.eq B.chosen };

    ghost respects = { Prim.assumption };
}

impl<
    A: Begins + Faithful,
    B: Begins + Faithful,
    C: Begins + Faithful,
    D: Begins + Faithful,
    E: FaithfulAlternatives,
> FaithfulAlternatives for Choice4<A, B, C, D, E> {
    ghost sameness = { sameness_as (this_or_other_by A.sameness A.eq A.meaning (this_or_other_by B.sameness B.eq B.meaning
        (this_or_other_by C.sameness C.eq C.meaning (this_or_other_sameness D.sameness D.eq D.meaning E.sameness E.facts.eq E.chosen)))) one_by_one };

    ghost respects = { Prim.assumption };
}
