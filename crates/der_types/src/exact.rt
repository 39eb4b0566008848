//! Types whose values are exactly the values of their ASN.1 types.
ghost use Rattle.std.specs.Prelude.{◌≡◌, refl};
ghost use Rattle.picky_der_core.specs.declared.asn1.wrapper.Wrapper.TheVariants as wrapper;
ghost use Rattle.picky_der_core.specs.Readable.{IsReadable};
ghost use Rattle.picky_der_core.specs.Tree.{ListKind, Tree};
ghost use Rattle.der_types.specs.Denotes.{Denotes, IsShort};
ghost use Rattle.der_types.specs.Exact.{Values, ProvedValues, plain_values, list_values, wrapped_values};
ghost use Rattle.der_types.specs.ExactContents.{raw_exact, any_content_exact};
ghost use Rattle.der_types.specs.ContentsFacts.{contents_of};
ghost use Rattle.der_types.specs.MadeValues.{vec_of};
ghost use Rattle.der_types.specs.Notation.{Notation};

use crate::{ImplicitSet, Notated, TagOrdered};
use picky_asn1_der::Asn1RawDer;
use picky_asn1_der::application_tag::ApplicationTag;
use picky_der_core::asn1::{
    Asn1SequenceOf, Asn1SetOf, BitStringAsn1Container, ExplicitContextTag, ImplicitContextTag,
    ImplicitList, OctetStringAsn1Container, TaggedBytes,
};
use picky_der_ser::List;
use std::fmt::Debug;

/// A type whose readable values mean exactly the readable trees that its notation denotes, including their contents and
/// ranges.
///
/// Its values therefore have exactly the encodings that DER gives the values of its ASN.1 type. `laws::exact` states
/// what is known of such a type.
pub trait Exact: Notated {
    // What the type states about its values, and what it has to prove for that.
    ghost values: { Values Self };

    // The proof, and that the statement is about the type's own notation and meaning.
    ghost exact: { ProvedValues values Self.notation Self.meaning };
}

impl<const TAG: u8> Exact for TaggedBytes<TAG> {
    ghost values = { plain_values (Notation.any-content TAG) (contents_of TAG (λ it. it.0.items))
        (any_content_exact TAG (λ it. it.0.items) (λ s h. (record { 0 = vec_of s h }, refl))) };

    ghost exact = { Prim.assumption };
}

impl Exact for Asn1RawDer {
    ghost values = { plain_values Notation.any-element (λ it. Tree.raw it.0.items)
        (raw_exact (λ it. it.0.items) (λ s e h. (record { 0 = vec_of s h }, refl))) };

    ghost exact = { Prim.assumption };
}

impl<T: Exact> Exact for Vec<T> {
    ghost values = { list_values T.values T.notation T.meaning ListKind.sequence (λ it. it.items) (λ xs h. (vec_of xs h, refl)) };

    ghost exact = { Prim.assumption };
}

impl<T: Exact> Exact for Asn1SequenceOf<T> {
    ghost values = { list_values T.values T.notation T.meaning ListKind.sequence (λ it. it.0.items)
        (λ xs h. (record { 0 = vec_of xs h }, refl)) };

    ghost exact = { Prim.assumption };
}

impl<T: Exact> Exact for Asn1SetOf<T> {
    ghost values = { list_values T.values T.notation T.meaning ListKind.set (λ it. it.0.items)
        (λ xs h. (record { 0 = vec_of xs h }, refl)) };

    ghost exact = { Prim.assumption };
}

impl<T: Exact> Exact for OctetStringAsn1Container<T> {
    ghost values = { wrapped_values T.values T.notation T.meaning wrapper.OctetContainer (λ it. it.0)
        (λ x. (record { 0 = x }, refl)) };

    ghost exact = { Prim.assumption };
}

impl<T: Exact> Exact for BitStringAsn1Container<T> {
    ghost values = { wrapped_values T.values T.notation T.meaning wrapper.BitContainer (λ it. it.0) (λ x. (record { 0 = x }, refl)) };

    ghost exact = { Prim.assumption };
}

impl<T: Exact, const N: u8> Exact for ExplicitContextTag<T, N> {
    ghost values = { wrapped_values T.values T.notation T.meaning (wrapper.Explicit N) (λ it. it.0) (λ x. (record { 0 = x }, refl)) };

    ghost exact = { Prim.assumption };
}

impl<T: Exact, const N: u8> Exact for ImplicitContextTag<T, N> {
    ghost values = { wrapped_values T.values T.notation T.meaning (wrapper.Implicit N) (λ it. it.0) (λ x. (record { 0 = x }, refl)) };

    ghost exact = { Prim.assumption };
}

impl<V: Exact + Debug, const T: u8> Exact for ApplicationTag<V, T> {
    ghost values = { wrapped_values V.values V.notation V.meaning (wrapper.Application T) (λ it. it.0)
        (λ x. (record { 0 = x }, refl)) };

    ghost exact = { Prim.assumption };
}

impl<T: Exact + List, const TAG: u8> Exact for ImplicitList<T, TAG> {
    ghost values = { wrapped_values T.values T.notation T.meaning (wrapper.ImplicitList TAG) (λ it. it.0)
        (λ x. (record { 0 = x }, refl)) };

    ghost exact = { Prim.assumption };
}

impl<T: Exact + TagOrdered, const TAG: u8> Exact for ImplicitSet<T, TAG> {
    ghost values = { wrapped_values T.values T.notation T.meaning (wrapper.ImplicitList TAG) (λ it. it.0)
        (λ x. (record { 0 = x }, refl)) };

    ghost exact = { Prim.assumption };
}
