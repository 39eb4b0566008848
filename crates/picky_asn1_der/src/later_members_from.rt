//! Members of later versions of a SEQUENCE whose tags are automatic.
ghost use Rattle.std.specs.Prelude.{◌≡◌, [], true, false, IfSome, IfNone};
ghost use Rattle.std.specs.Cmp.Lexicographic.{pointwise};
ghost use Rattle.picky_der_core.specs.Equality.{IsThatOf};
ghost use Rattle.picky_der_core.specs.Shape.{Layout};
ghost use Rattle.picky_der_de.specs.MembersFacts.{others_facts};
ghost use Rattle.picky_der_de.specs.OtherLaws.{others_of};
ghost use Rattle.picky_asn1_der.specs.LaterTags.{numbered_below, is_numbered_from, are_numbered_from};
ghost use Rattle.picky_asn1_der.specs.LaterTagLaws.{numbered_are_outside};

use crate::Asn1RawDer;
use picky_der_core::asn1::Tag;
use picky_der_core::misc::{ReadExt, WriteExt};
use picky_der_core::{Asn1DerError, Result};
use picky_der_de::DeserializeMembers;
use picky_der_ser::{SerializeMember, SerializeMembers};
use std::alloc::{AllocError, Global};
use std::hash::Hash;

/// The members that are left after the members of a struct, as elements: the members of a later version of an
/// extensible SEQUENCE (X.680, 25.1) whose tags are automatic, in their order. They are the last member of the struct.
///
/// The extension marker is at the end of the type: no known member comes after it. Automatic tags are context tags
/// whose numbers ascend from 0 on in the order of the text then (25.7), and later versions number their members after
/// all others. So `N` is the number of members that are known. The first element has a context tag with the number `N`
/// or a greater one, and each other a greater number than the one before it.
#[derive(Debug, Drop, PartialEq, Eq, PartialOrd, Ord, Hash)]
pub struct LaterMembersFrom<const N: u8> {
    /// The elements, each with its header.
    pub elements: Vec<Asn1RawDer>,
    ghost numbered: { are_numbered_from N (λ raw. raw.0.items) elements.items ≡ true },
}

// Whether it is a context tag with this number or a greater one.
fn is_numbered_from(tag: Tag, least: u8) -> bool
    ensures { result ≡ is_numbered_from least tag }
{
    tag.is_context_specific() && least <= tag.number()
}

// Whether each element has a context tag, with a number from this one on that is greater than that of the one before.
fn are_numbered_from(elements: &[Asn1RawDer], least: u8) -> bool
    ensures { result ≡ are_numbered_from least (λ raw. raw.0.items) elements.now }
{
    let mut next = least;
    for element in elements {
        let Some(byte) = element.0.first() else {
            return false;
        };
        let tag = Tag::from(*byte);
        if !is_numbered_from(tag, next) {
            return false;
        }
        next = tag.number() + 1;
    }
    true
}

impl<const N: u8> LaterMembersFrom<N> {
    /// Two are equal exactly if their elements are, in order.
    pub fn equality()
        ensures { IsThatOf ⟦<LaterMembersFrom<N> as PartialEq>⟧.eq (λ it. it.elements.items)
            (pointwise ⟦<Asn1RawDer as PartialEq>⟧.eq) }
    {}

    /// No members, on this allocator.
    pub fn none(alloc: Global) -> LaterMembersFrom<N>
        ensures { result.elements.items ≡ [] }
    {
        LaterMembersFrom {
            elements: Vec::new(alloc),
        }
    }

    /// These elements, or `None` if one has no context tag, a number below `N`, or one that isn't greater than that of
    /// the element before it.
    pub fn new(elements: Vec<Asn1RawDer>) -> Option<LaterMembersFrom<N>>
        ensures some { IfSome result (λ it. it.elements ≡ elements) }
        ensures none { IfNone result (are_numbered_from N (λ raw. raw.0.items)
            elements.items ≡ false) }
    {
        if are_numbered_from(&elements, N) {
            Some(LaterMembersFrom { elements })
        } else {
            None
        }
    }
}

/// It has copies of the elements. Copies that `new` doesn't allow, which no type of this library makes, count as a
/// failed allocation.
impl<const N: u8> Clone for LaterMembersFrom<N> {
    ghost is_clone = { λ x y. ⟦<Vec<Asn1RawDer> as Clone>⟧.is_clone x.elements y.elements };

    fn clone(&self) -> std::result::Result<LaterMembersFrom<N>, AllocError> {
        match Self::new(self.elements.clone()?) {
            Some(copy) => Ok(copy),
            None => Err(AllocError),
        }
    }
}

impl<const N: u8> SerializeMembers for LaterMembersFrom<N> {
    ghost members = { λ it. others_of (λ raw. raw.0.items) it.elements.items };

    fn serialize_members<W: WriteExt>(
        &self,
        sequence: &mut picky_der_ser::Sequence<'_, W>,
    ) -> Result<()> {
        for element in &self.elements {
            element.serialize_member(sequence)?;
        }
        Ok(())
    }
}

impl<const N: u8> DeserializeMembers for LaterMembersFrom<N> {
    ghost layout = { Layout.others (numbered_below N) };

    ghost facts = { others_facts (λ raw. raw.0.items) (numbered_below N) (λ it. it.elements.items)
        (λ it. numbered_are_outside (λ raw. raw.0.items) N it.elements.items it.numbered) };

    fn deserialize_members<R: ReadExt>(
        sequence: &mut picky_der_de::Sequence<'_, R>,
    ) -> Result<LaterMembersFrom<N>> {
        let elements = sequence.remaining::<Asn1RawDer>()?;
        match LaterMembersFrom::new(elements) {
            Some(members) => Ok(members),
            None => Err(sequence.refuse(Asn1DerError::InvalidData)),
        }
    }

    ghost proved = { Prim.assumption };
}
