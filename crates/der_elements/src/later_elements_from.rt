//! Members of later versions of a SEQUENCE whose tags are automatic, with elements in them.
ghost use Rattle.std.specs.Prelude.{◌≡◌, [], true, false, IfSome, IfNone};
ghost use Rattle.std.specs.Cmp.Lexicographic.{pointwise};
ghost use Rattle.picky_der_core.specs.Equality.{IsThatOf};
ghost use Rattle.picky_der_core.specs.Shape.{Layout};
ghost use Rattle.picky_der_de.specs.MembersFacts.{others_facts};
ghost use Rattle.picky_der_de.specs.OtherLaws.{others_of};
ghost use Rattle.picky_asn1_der.specs.LaterTags.{numbered_below, is_numbered_from, are_numbered_from};
ghost use Rattle.picky_asn1_der.specs.LaterTagLaws.{numbered_are_outside};

use crate::AnyElement;
use picky_der_core::asn1::Tag;
use picky_der_core::misc::{ReadExt, WriteExt};
use picky_der_core::{Asn1DerError, Result};
use picky_der_de::DeserializeMembers;
use picky_der_ser::{SerializeMember, SerializeMembers};
use std::alloc::{AllocError, Global};
use std::hash::Hash;

/// The members of a later version of a SEQUENCE whose tags are automatic, as `LaterMembersFrom` has them (X.680, 25.1).
/// In each that is constructed there are elements, at every depth.
///
/// The extension marker is at the end of the type: no known member comes after it. Automatic tags are context tags
/// whose numbers ascend from 0 on in the order of the text then (25.7), and later versions number their members after
/// all others. So `N` is the number of members that are known. The first element has a context tag with the number `N`
/// or a greater one, and each other a greater number than the one before it.
#[derive(Debug, Drop, PartialEq, Eq, PartialOrd, Ord, Hash)]
pub struct LaterElementsFrom<const N: u8> {
    /// The elements, each with its header.
    pub elements: Vec<AnyElement>,
    ghost numbered: { are_numbered_from N (λ e. e.element.0.items) elements.items ≡ true },
}

// Whether it is a context tag with this number or a greater one.
fn is_numbered_from(tag: Tag, least: u8) -> bool
    ensures { result ≡ is_numbered_from least tag }
{
    tag.is_context_specific() && least <= tag.number()
}

// Whether each element has a context tag, with a number from this one on that is greater than that of the one before.
fn are_numbered_from(elements: &[AnyElement], least: u8) -> bool
    ensures { result ≡ are_numbered_from least (λ e. e.element.0.items) elements.now }
{
    let mut next = least;
    for element in elements {
        let Some(byte) = element.as_bytes().first() else {
            return false;
        };
        let tag = Tag::from(*byte);
        if !is_numbered_from(tag, next) {
            return false;
        }
        next = tag.number() + 1;
    }
    true
}

impl<const N: u8> LaterElementsFrom<N> {
    /// Two are equal exactly if their elements are, in order.
    pub fn equality()
        ensures { IsThatOf ⟦<LaterElementsFrom<N> as PartialEq>⟧.eq (λ it. it.elements.items)
            (pointwise ⟦<AnyElement as PartialEq>⟧.eq) }
    {}

    /// No members, on this allocator.
    pub fn none(alloc: Global) -> LaterElementsFrom<N>
        ensures { result.elements.items ≡ [] }
    {
        LaterElementsFrom {
            elements: Vec::new(alloc),
        }
    }

    /// These elements, or `None` if one has no context tag, a number below `N`, or one that isn't greater than that of
    /// the element before it.
    pub fn new(elements: Vec<AnyElement>) -> Option<LaterElementsFrom<N>>
        ensures some { IfSome result (λ it. it.elements ≡ elements) }
        ensures none { IfNone result (are_numbered_from N (λ e. e.element.0.items)
            elements.items ≡ false) }
    {
        if are_numbered_from(&elements, N) {
            Some(LaterElementsFrom { elements })
        } else {
            None
        }
    }
}

/// It has copies of the elements. Copies that `new` doesn't allow, which no type of this library makes, count as a
/// failed allocation.
impl<const N: u8> Clone for LaterElementsFrom<N> {
    ghost is_clone = { λ x y. ⟦<Vec<AnyElement> as Clone>⟧.is_clone x.elements y.elements };

    fn clone(&self) -> std::result::Result<LaterElementsFrom<N>, AllocError> {
        match Self::new(self.elements.clone()?) {
            Some(copy) => Ok(copy),
            None => Err(AllocError),
        }
    }
}

impl<const N: u8> SerializeMembers for LaterElementsFrom<N> {
    ghost members = { λ it. others_of (λ e. e.element.0.items) it.elements.items };

    fn serialize_members<W: WriteExt>(
        &self,
        sequence: &mut picky_der_ser::Sequence<'_, W>,
    ) -> Result<()> {
        for element in &self.elements {
            element.serialize_member(sequence)?;
        }
        Ok(())
    }
}

impl<const N: u8> DeserializeMembers for LaterElementsFrom<N> {
    ghost layout = { Layout.others (numbered_below N) };

    ghost facts = { others_facts (λ e. e.element.0.items) (numbered_below N) (λ it. it.elements.items)
        (λ it. numbered_are_outside (λ e. e.element.0.items) N it.elements.items it.numbered) };

    fn deserialize_members<R: ReadExt>(
        sequence: &mut picky_der_de::Sequence<'_, R>,
    ) -> Result<LaterElementsFrom<N>> {
        let elements = sequence.remaining::<AnyElement>()?;
        match LaterElementsFrom::new(elements) {
            Some(members) => Ok(members),
            None => Err(sequence.refuse(Asn1DerError::InvalidData)),
        }
    }

    ghost proved = { Prim.assumption };
}
