//! Which ASN.1 type each Rust type is.
ghost use Rattle.std.specs.Prelude.{◌≡◌, refl};
ghost use Rattle.std.proofs.Common.{ap};
ghost use Rattle.picky_der_core.specs.declared.asn1.wrapper.Wrapper.TheVariants as wrapper;
ghost use Rattle.picky_der_core.specs.Tree.{ListKind};
ghost use Rattle.picky_der_core.specs.Shape.{Shape, Layout, firsts_of};
ghost use Rattle.picky_asn1_der.specs.LaterTags.{in_both_forms};
ghost use Rattle.der_types.specs.ExactStrings.{set_shape, string_notation};
ghost use Rattle.der_types.specs.Notation.{Notation, Member, Members, Alternatives, shape_of, layout_of, shapes_of};
ghost use Rattle.der_types.specs.NotationLaws.{IsMember, one_or_other};

use crate::{
    Contents, ImplicitPrimitive, ImplicitSet, NotatedDefault, NotatedSet, RestrictedString,
    TagOrdered,
};
use picky_asn1_der::application_tag::ApplicationTag;
use picky_asn1_der::{Added, AddedMembers, Asn1RawDer, LaterMembers, LaterMembersFrom};
use picky_der_core::asn1::{
    Asn1SequenceOf, Asn1SetOf, BitStringAsn1Container, ExplicitContextTag, ImplicitContextTag,
    ImplicitList, OctetStringAsn1Container, TaggedBytes,
};
use picky_der_de::{
    Alternatives, Begins, Choice4, Deserialize, DeserializeMember, DeserializeMembers, NoneOf,
    OneOf,
};
use picky_der_ser::{Defaulted, List, Optional};
use std::fmt::Debug;

/// A Rust type that is an ASN.1 type (X.680).
///
/// The notation of a type is made of the notations of its parts. It is the notation in the type's definition, and
/// nothing is written twice.
pub trait Notated: Deserialize {
    // The ASN.1 type.
    ghost notation: { Notation };

    // The trees of its values have the shape of that ASN.1 type.
    ghost denoted: { Self.shape ≡ shape_of notation };
}

/// A member of a struct, as a member of a SEQUENCE.
pub trait NotatedMember: DeserializeMember {
    // The member in ASN.1.
    ghost member: { Member };

    // It is optional, has a default or is required as that member is, and has its shape.
    ghost denoted_member: { IsMember Self.presence Self.shape member };
}

/// The members of a struct, each a member of a SEQUENCE.
pub trait NotatedMembers: DeserializeMembers {
    // The members in ASN.1.
    ghost members_notation: { Members };

    // They have the layout of those members.
    ghost denoted_layout: { Self.layout ≡ layout_of members_notation };
}

/// The alternatives of a choice, each an alternative of a CHOICE.
pub trait NotatedAlternatives: Alternatives {
    // The alternatives in ASN.1.
    ghost alternatives_notation: { Alternatives };

    // They have the shapes of those alternatives.
    ghost denoted_shapes: { Self.shapes ≡ shapes_of alternatives_notation };
}

impl<S: NotatedSet> Notated for RestrictedString<S> {
    ghost notation = { string_notation S.TAG S.permitted };

    ghost denoted = { set_shape S.TAG S.permitted };
}

impl<const TAG: u8> Notated for TaggedBytes<TAG> {
    ghost notation = { Notation.any-content TAG };

    ghost denoted = { refl };
}

impl Notated for Asn1RawDer {
    ghost notation = { Notation.any-element };

    ghost denoted = { refl };
}

impl<T: Notated> Notated for Vec<T> {
    ghost notation = { Notation.list-of ListKind.sequence T.notation };

    ghost denoted = { ap (Shape.list_of ListKind.sequence) T.denoted };
}

impl<T: Notated> Notated for Asn1SequenceOf<T> {
    ghost notation = { Notation.list-of ListKind.sequence T.notation };

    ghost denoted = { ap (Shape.list_of ListKind.sequence) T.denoted };
}

impl<T: Notated> Notated for Asn1SetOf<T> {
    ghost notation = { Notation.list-of ListKind.set T.notation };

    ghost denoted = { ap (Shape.list_of ListKind.set) T.denoted };
}

impl<T: Notated> Notated for OctetStringAsn1Container<T> {
    ghost notation = { Notation.wrapped wrapper.OctetContainer T.notation };

    ghost denoted = { ap (Shape.wrapped wrapper.OctetContainer) T.denoted };
}

impl<T: Notated> Notated for BitStringAsn1Container<T> {
    ghost notation = { Notation.wrapped wrapper.BitContainer T.notation };

    ghost denoted = { ap (Shape.wrapped wrapper.BitContainer) T.denoted };
}

impl<T: Notated, const N: u8> Notated for ExplicitContextTag<T, N> {
    ghost notation = { Notation.wrapped (wrapper.Explicit N) T.notation };

    ghost denoted = { ap (Shape.wrapped (wrapper.Explicit N)) T.denoted };
}

impl<T: Notated, const N: u8> Notated for ImplicitContextTag<T, N> {
    ghost notation = { Notation.wrapped (wrapper.Implicit N) T.notation };

    ghost denoted = { ap (Shape.wrapped (wrapper.Implicit N)) T.denoted };
}

impl<V: Notated + Debug, const T: u8> Notated for ApplicationTag<V, T> {
    ghost notation = { Notation.wrapped (wrapper.Application T) V.notation };

    ghost denoted = { ap (Shape.wrapped (wrapper.Application T)) V.denoted };
}

impl<T: Notated + List, const TAG: u8> Notated for ImplicitList<T, TAG> {
    ghost notation = { Notation.wrapped (wrapper.ImplicitList TAG) T.notation };

    ghost denoted = { ap (Shape.wrapped (wrapper.ImplicitList TAG)) T.denoted };
}

impl<T: Notated + TagOrdered, const TAG: u8> Notated for ImplicitSet<T, TAG> {
    ghost notation = { Notation.wrapped (wrapper.ImplicitList TAG) T.notation };

    ghost denoted = { ap (Shape.wrapped (wrapper.ImplicitList TAG)) T.denoted };
}

impl<T: Notated + Contents, const TAG: u8> Notated for ImplicitPrimitive<T, TAG> {
    ghost notation = { Notation.content-under TAG T.notation };

    ghost denoted = { refl };
}

impl<T: Notated> NotatedMember for T {
    ghost member = { Member.required T.notation };

    ghost denoted_member = { record { denoted_layout = λ l. ap (λ s. Layout.required s l) T.denoted } };
}

impl<T: Notated + Begins> NotatedMember for Optional<T> {
    ghost member = { Member.optional T.notation };

    ghost denoted_member = { record { denoted_layout = λ l. ap (λ s. Layout.maybe s l) T.denoted } };
}

impl<T: Notated + Begins, D: NotatedDefault<T>> NotatedMember for Defaulted<T, D> {
    ghost member = { Member.defaulted D.value T.notation };

    ghost denoted_member = { record { denoted_layout = λ l. ap (λ s. Layout.maybe s l) T.denoted } };
}

impl NotatedMembers for () {
    ghost members_notation = { Members.end };

    ghost denoted_layout = { refl };
}

impl<M: NotatedMembers + AddedMembers> NotatedMembers for Added<M> {
    ghost members_notation = { Members.added M.members_notation };

    ghost denoted_layout = { ap Layout.added M.denoted_layout };
}

impl<A: Alternatives> NotatedMembers for LaterMembers<A> {
    ghost members_notation = { Members.others (in_both_forms (firsts_of A.shapes)) };

    ghost denoted_layout = { refl };
}

impl<const N: u8> NotatedMembers for LaterMembersFrom<N> {
    ghost members_notation = { Members.others-from N };

    ghost denoted_layout = { refl };
}

impl NotatedAlternatives for NoneOf {
    ghost alternatives_notation = { Alternatives.none };

    ghost denoted_shapes = { refl };
}

impl<A: Notated + Begins, B: NotatedAlternatives> NotatedAlternatives for OneOf<A, B> {
    ghost alternatives_notation = { Alternatives.alternative A.notation B.alternatives_notation };

    ghost denoted_shapes = { one_or_other A.denoted B.denoted_shapes };
}

impl<
    A: Notated + Begins,
    B: Notated + Begins,
    C: Notated + Begins,
    D: Notated + Begins,
    E: NotatedAlternatives,
> NotatedAlternatives for Choice4<A, B, C, D, E> {
    ghost alternatives_notation = { Alternatives.alternative A.notation
        (Alternatives.alternative B.notation
        (Alternatives.alternative C.notation (Alternatives.alternative D.notation E.alternatives_notation))) };

    ghost denoted_shapes = { one_or_other A.denoted
        (one_or_other B.denoted (one_or_other C.denoted (one_or_other D.denoted E.denoted_shapes))) };
}
