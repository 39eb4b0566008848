//! The members of a SEQUENCE, as they are read: one, which is always there or may be absent, all of them, and structs
//! of them.
ghost use Rattle.std.specs.Prelude.{◌≡◌, Bool, false, Option, Some, IfOk, IfErr, IfSome, IfNone, true, None};
ghost use Rattle.picky_der_core.specs.Shape.{Shape, Layout};
ghost use Rattle.picky_der_core.specs.Tree.{ListKind, Tree};
ghost use Rattle.picky_der_ser.specs.Meaning.{unless_default};
ghost use Rattle.picky_der_de.specs.Members.{ReadsMember};
ghost use Rattle.picky_der_de.specs.Layouts.{Presence, always, perhaps, Lacks, RefusesLayoutMember, ReadsLayout};
ghost use Rattle.picky_der_de.specs.Layouts.{RefusesLayout};
ghost use Rattle.picky_der_de.specs.LayoutLaws.{IsLeftOut, none_left_out, default_left_out};
ghost use Rattle.picky_der_de.specs.MembersFacts.{MemberFacts, ProvedMember, always_facts, element_facts};
ghost use Rattle.picky_der_de.specs.MembersFacts.{perhaps_facts, default_facts, MembersFacts, ProvedMembers};
ghost use Rattle.picky_der_de.specs.MembersFacts.{none_facts, sequence_of, sequence_shape};
ghost use Rattle.picky_der_de.specs.Reading.{Reads, Refuses};
ghost use Rattle.picky_der_de.specs.RefusesBy.{RefusesBy};
ghost use Rattle.picky_der_de.specs.Rules.{field_rule, fields_rule, LeadsTo, RefusesBefore};
ghost use Rattle.picky_der_de.specs.FirstTests.{are_members_distinct};

use crate::{Begins, Deserialize, Deserializer, Sequence};
use picky_der_core::Result;
use picky_der_core::asn1::Tag;
use picky_der_core::misc::ReadExt;
use picky_der_ser::{DefaultOf, Defaulted, Element, Optional, SerializeMember, SerializeMembers};

/// A member of a struct that can be read: a value that is always there, or one that may be absent, as `Optional` and
/// `Defaulted` are.
pub trait DeserializeMember: SerializeMember + PartialEq + Drop + Sized {
    ghost use Rattle.picky_der_de.specs.SequenceState.{borrowed_by, outer_of, state_of, deserializer_of};

    /// The type of the value that is there.
    type Item;

    // The trees of the values that are there.
    ghost shape: { Shape };

    // The tree of a value that is there.
    ghost item_meaning: { Self.Item → Tree };

    // Which of them are equal.
    ghost item_eq: { Self.Item → Self.Item → Bool };

    // Whether it is always there.
    ghost presence: { Presence };

    // The value that is there, if one is.
    ghost item: { Self → Option Self.Item };

    // What is never written.
    ghost left_out: { Self.Item → Bool };

    // What the member says of itself: which trees it means, and that these determine it. It follows from the premise.
    ghost facts: { MemberFacts Self presence shape item_meaning item_eq item };

    /// Reads the member. The errors are those of `next_field`, `next_optional` or `next_or_default`.
    fn deserialize_member<R: ReadExt>(sequence: &mut Sequence<'_, R>) -> Result<Self>
        ensures same_reference { borrowed_by sequence.new ≡ borrowed_by sequence.old }
        ensures outer { outer_of sequence.new ≡ outer_of sequence.old }
        ensures member { IfOk result (λ member. IfSome (item member)
            (λ value. ReadsMember shape (state_of sequence.old) (state_of sequence.new)
            (item_meaning value))) }
        ensures none { IfOk result (λ member. IfNone (item member)
            (Lacks shape (state_of sequence.old) (state_of sequence.new))) }
        ensures err { IfErr result (RefusesLayoutMember presence item_meaning left_out shape
            (field_rule facts.rule) (state_of sequence.old) (deserializer_of sequence.new)
            (state_of sequence.new).last) };

    // The tree determines which values are never written.
    ghost distinguished: { IsLeftOut item_meaning item left_out };

    // The premise, and that `SerializeMember` writes what is there.
    ghost proved: { ProvedMember facts Self.prepend };
}

impl<T: Deserialize> DeserializeMember for T {
    type Item = T;

    ghost shape = { T.shape };

    ghost item_meaning = { T.meaning };

    ghost item_eq = { T.eq };

    ghost presence = { always };

    ghost item = { λ value. Some value };

    ghost left_out = { λ _. false };

    ghost facts = { always_facts T.facts T.meaning T.eq };

    fn deserialize_member<R: ReadExt>(sequence: &mut Sequence<'_, R>) -> Result<T> {
        sequence.next_field::<T>()
    }

    ghost distinguished = { none_left_out (λ value. Some value) };

    ghost proved = { Prim.assumption };
}

impl<T: Deserialize> DeserializeMember for Element<T> {
    type Item = T;

    ghost shape = { T.shape };

    ghost item_meaning = { T.meaning };

    ghost item_eq = { T.eq };

    ghost presence = { always };

    ghost item = { λ element. Some element.0 };

    ghost left_out = { λ _. false };

    ghost facts = { element_facts T.facts T.meaning T.eq (λ element. element.0) };

    fn deserialize_member<R: ReadExt>(sequence: &mut Sequence<'_, R>) -> Result<Element<T>> {
        let value = sequence.next_field::<T>()?;
        Ok(Element(value))
    }

    ghost distinguished = { none_left_out (λ element. Some element.0) };

    ghost proved = { Prim.assumption };
}

impl<T: Begins> DeserializeMember for Optional<T> {
    type Item = T;

    ghost shape = { T.shape };

    ghost item_meaning = { T.meaning };

    ghost item_eq = { T.eq };

    ghost presence = { perhaps };

    ghost item = { λ member. member.0 };

    ghost left_out = { λ _. false };

    ghost facts = { perhaps_facts T.facts T.meaning T.eq (λ member. member.0) };

    fn deserialize_member<R: ReadExt>(sequence: &mut Sequence<'_, R>) -> Result<Optional<T>> {
        let value = sequence.next_optional::<T>()?;
        Ok(Optional(value))
    }

    ghost distinguished = { none_left_out (λ member. member.0) };

    ghost proved = { Prim.assumption };
}

impl<T: Begins, D: DefaultOf<T>> DeserializeMember for Defaulted<T, D> {
    type Item = T;

    ghost shape = { T.shape };

    ghost item_meaning = { T.meaning };

    ghost item_eq = { T.eq };

    ghost presence = { perhaps };

    ghost item = { λ member. unless_default D.left_out member.value };

    ghost left_out = { D.left_out };

    ghost facts = { default_facts T.facts T.meaning T.eq D.left_out D.equal D.one (λ member. member.value) };

    fn deserialize_member<R: ReadExt>(sequence: &mut Sequence<'_, R>) -> Result<Defaulted<T, D>> {
        let value = sequence.next_or_default::<T, D>()?;
        Ok(Defaulted::new(value))
    }

    ghost distinguished = { default_left_out D.left_out D.by_tree (λ member. member.value) };

    ghost proved = { Prim.assumption };
}

/// Members of a sequence that can be read, of which some may be absent. They are `()` or a tuple of up to eight members
/// and the members after them, as `(A, Optional<B>, C, ())`.
pub trait DeserializeMembers: SerializeMembers + PartialEq + Drop + Sized {
    ghost use Rattle.picky_der_de.specs.SequenceState.{borrowed_by, outer_of, state_of, deserializer_of};

    // The shapes of the members, and which may be missing.
    ghost layout: { Layout };

    // What the members say of themselves: which trees they mean, and that these determine them. It follows from the
    // premise.
    ghost facts: { MembersFacts Self layout };

    /// Reads the members, from a sequence that hasn't failed and of which no member is awaited directly under an
    /// implicit tag. What is left after the last member may be peeked, and isn't consumed.
    ///
    /// The errors of a member that is always there are those of `next_field`. For one that may be absent they are those
    /// of `next_optional`, and for one with a default those of `next_or_default`.
    fn deserialize_members<R: ReadExt>(sequence: &mut Sequence<'_, R>) -> Result<Self>
        requires had_not_failed { (state_of sequence.old).failed ≡ None }
        requires implicit_tag { (state_of sequence.old).implicit_tag ≡ None }
        ensures same_reference { borrowed_by sequence.new ≡ borrowed_by sequence.old }
        ensures outer { outer_of sequence.new ≡ outer_of sequence.old }
        ensures ok { IfOk result (λ it. ReadsLayout layout (state_of sequence.old)
            (state_of sequence.new) (Self.members it)) }
        ensures err { IfErr result (RefusesLayout Self.members layout (state_of sequence.old)
            (deserializer_of sequence.new)) }
        ensures leads { IfOk result (λ _. LeadsTo facts.rule (state_of sequence.old)
            (state_of sequence.new)) }
        ensures refused_by { IfErr result (RefusesBefore facts.rule (state_of sequence.old)
            (deserializer_of sequence.new)) };

    // The premise, and that the members mean the same to `SerializeMembers`.
    ghost proved: { ProvedMembers facts Self.members };
}

impl DeserializeMembers for () {
    ghost layout = { Layout.empty };

    ghost facts = { none_facts };

    fn deserialize_members<R: ReadExt>(_sequence: &mut Sequence<'_, R>) -> Result<()> {
        Ok(())
    }

    ghost proved = { Prim.assumption };
}

/// A type whose values are those of the members of a SEQUENCE, as a struct's are.
///
/// Each combination of members has to be a value of the type. Else write `deserialize` by hand, with the calls of the
/// deserializer.
pub trait Struct: Sized {
    /// The members, as `(A, Optional<B>, ())` if one is always there and one may be absent. The members after the
    /// eighth are the last field, again a tuple.
    type Members: DeserializeMembers;

    // The members of a value.
    ghost parts: { Self → Self.Members };

    /// The value with these members.
    fn from_parts(members: Self::Members) -> Self
        ensures { parts result ≡ members };
}

/// Reads a sequence of these members. It is the whole body of `Deserialize::deserialize` of such a type. No byte may
/// begin both a member that may be absent and one that may come instead of it.
///
/// `InvalidData` for what is left after the members, and for a default that is written out (X.690, 11.5). Any other
/// error is that of `deserialize_seq`, `next_field` or `next_optional`.
pub fn deserialize_struct_as<T: Struct, R: ReadExt>(de: &mut Deserializer<R>) -> Result<T>
    requires distinct { are_members_distinct T.Members.layout ≡ true }
    ensures ok { IfOk result (λ value. Reads (sequence_shape T.Members.layout) de.old de.new
        (sequence_of T.Members.members T.parts value)) }
    ensures err { IfErr result (Refuses (sequence_of T.Members.members T.parts)
        (sequence_shape T.Members.layout) de.old de.new) }
    ensures refused_by { IfErr result (RefusesBy (fields_rule ListKind.sequence T.Members.facts.rule)
        de.old de.new) }
{
    let mut sequence = de.begin_list(Tag::SEQUENCE)?;
    let members = T::Members::deserialize_members(&mut sequence)?;
    sequence.end()?;
    Ok(T::from_parts(members))
}
