//! The types of this crate whose equal values have one encoding, and of which some value is readable.
ghost use Rattle.std.specs.Prelude.{[], ◌∷◌};
ghost use lib.Dec.{eqb};
ghost use lib.Pointwise.{pointwise};
ghost use Rattle.picky_der_core.specs.declared.asn1.wrapper.Wrapper.TheVariants.{Application};
ghost use Rattle.picky_der_core.specs.Tree.{Tree};
ghost use Rattle.picky_der_de.specs.Examples.{null_element, null_element_readable};
ghost use Rattle.picky_der_de.specs.Faithful.{plain_sameness, plain_members, wrapped_sameness, bytes_respect};
ghost use Rattle.picky_der_de.specs.Faithful.{others_respect};
ghost use Rattle.picky_der_de.specs.OtherLaws.{others_of};
ghost use Rattle.picky_asn1_der.specs.AddedLaws.{added_sameness};

use crate::application_tag::ApplicationTag;
use crate::{
    Added, AddedMembers, Alternatives, Asn1RawDer, Faithful, FaithfulMembers, Inhabited,
    LaterMembers, LaterMembersFrom,
};
use std::fmt::Debug;

impl<V: Faithful + Debug, const T: u8> Faithful for ApplicationTag<V, T> {
    ghost sameness = { wrapped_sameness V.sameness V.eq V.meaning (Application T) (λ it. it.0) };

    ghost respects = { Prim.assumption };
}

impl Faithful for Asn1RawDer {
    ghost sameness = { plain_sameness (λ x y. pointwise eqb x.0.items y.0.items) (λ it. Tree.raw it.0.items)
        (bytes_respect Tree.raw (λ it. it.0.items)) };

    ghost respects = { Prim.assumption };
}

impl Inhabited for Asn1RawDer {
    ghost example = { (record { 0 = null_element }, null_element_readable) };
}

impl<M: FaithfulMembers + AddedMembers> FaithfulMembers for Added<M> {
    ghost sameness = { added_sameness M.sameness M.facts.tests M.members (λ it. it.0) };

    ghost respects = { Prim.assumption };
}

impl<A: Alternatives> FaithfulMembers for LaterMembers<A> {
    ghost sameness = { plain_members (λ x y. pointwise (λ a b. pointwise eqb a.0.items b.0.items) x.elements.items y.elements.items
        ∷ []) (λ it. others_of (λ raw. raw.0.items) it.elements.items)
        (others_respect (λ raw. raw.0.items) (λ it. it.elements.items)) };

    ghost respects = { Prim.assumption };
}

impl<const N: u8> FaithfulMembers for LaterMembersFrom<N> {
    ghost sameness = { plain_members (λ x y. pointwise (λ a b. pointwise eqb a.0.items b.0.items) x.elements.items y.elements.items
        ∷ []) (λ it. others_of (λ raw. raw.0.items) it.elements.items)
        (others_respect (λ raw. raw.0.items) (λ it. it.elements.items)) };

    ghost respects = { Prim.assumption };
}
