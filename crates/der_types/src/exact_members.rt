//! Structs whose values are exactly the values of their SEQUENCEs.
ghost use Rattle.std.specs.Prelude.{refl};
ghost use Rattle.der_types.specs.ExactMembers.{MemberValues, ProvedMember, MembersValues, ProvedMembers};
ghost use Rattle.der_types.specs.ExactMembers.{required_values, optional_values, none_values};
ghost use Rattle.der_types.specs.ExactAdded.{added_values};
ghost use Rattle.der_types.specs.ExactLater.{others_values, numbered_values};
ghost use Rattle.der_types.specs.MadeValues.{vec_of};
ghost use Rattle.picky_der_core.specs.Shape.{firsts_of};
ghost use Rattle.picky_asn1_der.specs.LaterTags.{in_both_forms};

use crate::{Exact, NotatedMember, NotatedMembers};
use picky_asn1_der::{Added, AddedMembers, LaterMembers, LaterMembersFrom};
use picky_der_de::{Alternatives, Begins};
use picky_der_ser::Optional;

/// A member whose values are exactly the values of a member of ASN.1.
pub trait ExactMember: NotatedMember {
    // What the member states about its values, and what it has to prove for that.
    ghost member_values: { MemberValues Self };

    // The proof, and that the statement is about this member.
    ghost exact_member: { ProvedMember member_values Self.member Self.prepend };
}

/// Members whose values are exactly the values of the members of a SEQUENCE.
pub trait ExactMembers: NotatedMembers {
    // What the members state about their values, and what they have to prove for that.
    ghost all_values: { MembersValues Self };

    // The proof, and that the statement is about these members.
    ghost exact_members: { ProvedMembers all_values Self.members_notation Self.members };
}

impl<T: Exact> ExactMember for T {
    ghost member_values = { required_values T.values T.notation T.meaning };

    ghost exact_member = { Prim.assumption };
}

impl<T: Exact + Begins> ExactMember for Optional<T> {
    ghost member_values = { optional_values T.values T.notation T.meaning (λ it. it.0) (λ o. (record { 0 = o }, refl)) };

    ghost exact_member = { Prim.assumption };
}

impl<M: ExactMembers + AddedMembers> ExactMembers for Added<M> {
    ghost all_values = { added_values M.all_values M.members_notation M.members (λ it. it.0)
        (λ o. (record { 0 = o }, refl)) };

    ghost exact_members = { Prim.assumption };
}

impl<A: Alternatives> ExactMembers for LaterMembers<A> {
    ghost all_values = { others_values (λ raw. raw.0.items) (λ s h. (record { 0 = vec_of s h }, refl))
        (in_both_forms (firsts_of A.shapes)) (λ it. it.elements.items) (λ it. it.outside)
        (λ es o h. (record { elements = vec_of es h; before = record {}; outside = o }, refl)) };

    ghost exact_members = { Prim.assumption };
}

impl<const N: u8> ExactMembers for LaterMembersFrom<N> {
    ghost all_values = { numbered_values (λ raw. raw.0.items) (λ s h. (record { 0 = vec_of s h }, refl)) N
        (λ it. it.elements.items) (λ it. it.numbered)
        (λ es o h. (record { elements = vec_of es h; numbered = o }, refl)) };

    ghost exact_members = { Prim.assumption };
}

impl ExactMembers for () {
    ghost all_values = { none_values tt };

    ghost exact_members = { Prim.assumption };
}
