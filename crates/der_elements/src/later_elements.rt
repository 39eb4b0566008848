//! Members of later versions, after the members that a struct knows, with elements in them.
ghost use Rattle.std.specs.Prelude.{◌≡◌, ◌↔◌, [], true, false, None, IsTrue, IfOk, IfErr, IfSome, IfNone, OnOk};
ghost use Rattle.std.specs.Cmp.Lexicographic.{pointwise};
ghost use Rattle.picky_der_core.specs.Equality.{IsThatOf};
ghost use Rattle.picky_der_core.specs.Shape.{Shape, Layout, contains, firsts_of};
ghost use Rattle.picky_der_de.specs.MembersFacts.{others_facts};
ghost use Rattle.picky_der_de.specs.Layouts.{Lacks, RefusesLayout};
ghost use Rattle.picky_der_de.specs.OtherLaws.{are_outside, others_of};
ghost use Rattle.picky_der_de.specs.SequenceState.{borrowed_by, outer_of, state_of, deserializer_of};
ghost use Rattle.picky_asn1_der.specs.LaterTags.{in_both_forms, other_form};

use crate::AnyElement;
use picky_der_core::asn1::Tag;
use picky_der_core::misc::{ReadExt, WriteExt};
use picky_der_core::{Asn1DerError, Result};
use picky_der_de::{Alternatives, DeserializeMembers};
use picky_der_ser::{SerializeMember, SerializeMembers};
use std::alloc::{AllocError, Global};
use std::hash::Hash;
use std::marker::PhantomData;

/// The members of a later version, as `LaterMembers` has them (X.680, 25.1). In each that is constructed there are
/// elements, at every depth.
///
/// `A` has the types of the members directly before them that may be absent. After an `Optional<B>` and an
/// `Optional<C>` it is `OneOf<B, OneOf<C, NoneOf>>`. After a member that is always there it is `NoneOf`. The first
/// element has the tag of no value of these types, whether it is primitive or constructed (25.6, and X.690, 8.1.2.5).
///
/// Where the tags are automatic, `LaterElementsFrom` is the type of these members.
#[derive(Drop)]
#[derive_where(Debug, PartialEq, Eq, PartialOrd, Ord, Hash)]
pub struct LaterElements<A: Alternatives> {
    /// The elements, each with its header.
    pub elements: Vec<AnyElement>,
    #[derive_where(skip)]
    before: PhantomData<A>,
    ghost outside: { are_outside (in_both_forms (firsts_of A.shapes)) (λ e. e.element.0.items) elements.items ≡ true },
}

// The same tag on an encoding of the other form.
fn other_form(tag: Tag) -> Tag
    ensures { result ≡ other_form tag }
{
    let byte = tag.inner();
    Tag::from(if tag.is_constructed() {
        byte - 0x20
    } else {
        byte + 0x20
    })
}

// Whether a value of `A` can have this tag, on an encoding of either form.
fn has_tag<A: Alternatives>(tag: Tag) -> bool
    ensures { IsTrue result ↔ IsTrue (contains (in_both_forms (firsts_of A.shapes)) tag) }
{
    A::begins_with(tag) || A::begins_with(other_form(tag))
}

// Whether the first element has the tag of no value of `A`.
fn are_outside<A: Alternatives>(elements: &[AnyElement]) -> bool
    ensures { result ≡ are_outside (in_both_forms (firsts_of A.shapes)) (λ e. e.element.0.items) elements.now }
{
    let Some(first) = elements.first() else {
        return true;
    };
    let Some(byte) = first.as_bytes().first() else {
        return true;
    };
    !has_tag::<A>(Tag::from(*byte))
}

impl<A: Alternatives> LaterElements<A> {
    /// Two are equal exactly if their elements are, in order.
    pub fn equality()
        ensures { IsThatOf ⟦<LaterElements<A> as PartialEq>⟧.eq (λ it. it.elements.items)
            (pointwise ⟦<AnyElement as PartialEq>⟧.eq) }
    {}

    /// No members, on this allocator.
    pub fn none(alloc: Global) -> LaterElements<A>
        ensures { result.elements.items ≡ [] }
    {
        LaterElements {
            elements: Vec::new(alloc),
            before: PhantomData,
        }
    }

    /// These elements, or `None` if the first of them has the tag of a value of `A`.
    pub fn new(elements: Vec<AnyElement>) -> Option<LaterElements<A>>
        ensures some { IfSome result (λ it. it.elements ≡ elements) }
        ensures none { IfNone result (are_outside (in_both_forms (firsts_of A.shapes)) (λ e. e.element.0.items)
            elements.items ≡ false) }
    {
        if are_outside::<A>(&elements) {
            Some(LaterElements {
                elements,
                before: PhantomData,
            })
        } else {
            None
        }
    }
}

/// It has copies of the elements. Copies that `new` doesn't allow, which no type of this library makes, count as a
/// failed allocation.
impl<A: Alternatives> Clone for LaterElements<A> {
    ghost is_clone = { λ x y. ⟦<Vec<AnyElement> as Clone>⟧.is_clone x.elements y.elements };

    fn clone(&self) -> std::result::Result<LaterElements<A>, AllocError> {
        match Self::new(self.elements.clone()?) {
            Some(copy) => Ok(copy),
            None => Err(AllocError),
        }
    }
}

impl<A: Alternatives> SerializeMembers for LaterElements<A> {
    ghost members = { λ it. others_of (λ e. e.element.0.items) it.elements.items };

    fn serialize_members<W: WriteExt>(
        &self,
        sequence: &mut picky_der_ser::Sequence<'_, W>,
    ) -> Result<()> {
        for element in &self.elements {
            element.serialize_member(sequence)?;
        }
        Ok(())
    }
}

// Looks at the next byte. One of the tag of a value of `A` is refused.
fn refuse_excluded<A: Alternatives, R: ReadExt>(
    sequence: &mut picky_der_de::Sequence<'_, R>,
) -> Result<()>
    requires implicit_tag { (state_of sequence.old).implicit_tag ≡ None }
    ensures same_reference { borrowed_by sequence.new ≡ borrowed_by sequence.old }
    ensures outer { outer_of sequence.new ≡ outer_of sequence.old }
    ensures ok { OnOk result (Lacks (Shape.choice A.shapes) (state_of sequence.old)
        (state_of sequence.new)) }
    ensures err { IfErr result (RefusesLayout ⟦<LaterElements<A> as SerializeMembers>⟧.members
        (Layout.others (in_both_forms (firsts_of A.shapes))) (state_of sequence.old)
        (deserializer_of sequence.new)) }
{
    match sequence.next_tag() {
        Ok(Some(tag)) => {
            if has_tag::<A>(tag) {
                return Err(sequence.refuse(Asn1DerError::InvalidData));
            }
            Ok(())
        }
        Ok(None) => Ok(()),
        Err(error) => Err(error),
    }
}

impl<A: Alternatives> DeserializeMembers for LaterElements<A> {
    ghost layout = { Layout.others (in_both_forms (firsts_of A.shapes)) };

    ghost facts = { others_facts (λ e. e.element.0.items) (in_both_forms (firsts_of A.shapes)) (λ it. it.elements.items)
        (λ it. it.outside) };

    fn deserialize_members<R: ReadExt>(
        sequence: &mut picky_der_de::Sequence<'_, R>,
    ) -> Result<LaterElements<A>> {
        refuse_excluded::<A, R>(sequence)?;
        let elements = sequence.remaining::<AnyElement>()?;
        match LaterElements::new(elements) {
            Some(members) => Ok(members),
            // A reader that isn't known may give another byte than it showed.
            None => Err(sequence.refuse(Asn1DerError::InvalidData)),
        }
    }

    ghost proved = { Prim.assumption };
}
