//! Members that an extension added.
ghost use Rattle.std.specs.Prelude.{◌≡◌, true, None, IfOk, IfErr};
ghost use Rattle.std.specs.Option.{option_eq};
ghost use Rattle.picky_der_core.specs.Equality.{IsThatOf};
ghost use Rattle.picky_der_core.specs.Shape.{Layout};
ghost use Rattle.picky_der_de.specs.Layouts.{ReadsLayout, RefusesLayout};
ghost use Rattle.picky_der_de.specs.Rules.{LeadsTo, RefusesBefore};
ghost use Rattle.picky_der_de.specs.SequenceState.{borrowed_by, outer_of, state_of, deserializer_of};
ghost use Rattle.picky_asn1_der.specs.AddedLaws.{added_facts, added_members, has_required};

use picky_der_core::Result;
use picky_der_core::misc::{ReadExt, WriteExt};
use picky_der_de::{DeserializeMembers, Struct};
use picky_der_ser::SerializeMembers;

/// The members that an extension added to a SEQUENCE, or none in a value of an earlier version (X.680, 25.1). They are
/// the last member of the struct.
///
/// `M` has those of one extension addition, and all members after them: further ones are `Added` again. One of them is
/// always there in a value that has them, since an addition of OPTIONAL members alone is no group: these are members
/// of the struct itself.
#[derive(Debug, Clone, Drop, PartialEq, Eq, PartialOrd, Ord, Hash)]
pub struct Added<M>(pub Option<M>);

/// Members that an extension added.
pub trait AddedMembers: DeserializeMembers {
    // One of them is always there, so that they aren't taken for none.
    ghost present: { has_required Self.layout ≡ true };
}

/// Reads members as those of a struct. It is the whole body of `DeserializeMembers::deserialize_members` of such a
/// type, and its errors are those of the members.
pub fn deserialize_members_as<T: Struct, R: ReadExt>(
    sequence: &mut picky_der_de::Sequence<'_, R>,
) -> Result<T>
    requires had_not_failed { (state_of sequence.old).failed ≡ None }
    requires implicit_tag { (state_of sequence.old).implicit_tag ≡ None }
    ensures same_reference { borrowed_by sequence.new ≡ borrowed_by sequence.old }
    ensures outer { outer_of sequence.new ≡ outer_of sequence.old }
    ensures ok { IfOk result (λ value. ReadsLayout T.Members.layout (state_of sequence.old)
        (state_of sequence.new) (T.Members.members (T.parts value))) }
    ensures err { IfErr result (RefusesLayout (λ value. T.Members.members (T.parts value))
        T.Members.layout (state_of sequence.old) (deserializer_of sequence.new)) }
    ensures leads { IfOk result (λ _. LeadsTo T.Members.facts.rule (state_of sequence.old)
        (state_of sequence.new)) }
    ensures refused_by { IfErr result (RefusesBefore T.Members.facts.rule (state_of sequence.old)
        (deserializer_of sequence.new)) }
{
    let members = T::Members::deserialize_members(sequence)?;
    Ok(T::from_parts(members))
}

impl<M: PartialEq> Added<M> {
    /// Two are equal exactly if both have equal members, or none.
    pub fn equality()
        ensures { IsThatOf ⟦<Added<M> as PartialEq>⟧.eq (λ it. it.0) (option_eq M.eq) }
    {}
}

impl<M: SerializeMembers> SerializeMembers for Added<M> {
    ghost members = { λ it. added_members M.members it.0 };

    fn serialize_members<W: WriteExt>(
        &self,
        sequence: &mut picky_der_ser::Sequence<'_, W>,
    ) -> Result<()> {
        match &self.0 {
            Some(members) => members.serialize_members(sequence),
            None => Ok(()),
        }
    }
}

impl<M: AddedMembers> DeserializeMembers for Added<M> {
    ghost layout = { Layout.added M.layout };

    ghost facts = { added_facts M.facts M.members (λ it. it.0) };

    fn deserialize_members<R: ReadExt>(
        sequence: &mut picky_der_de::Sequence<'_, R>,
    ) -> Result<Added<M>> {
        match sequence.next_tag() {
            Ok(Some(_)) => {
                let members = M::deserialize_members(sequence)?;
                Ok(Added(Some(members)))
            }
            Ok(None) => Ok(Added(None)),
            Err(error) => Err(error),
        }
    }

    ghost proved = { Prim.assumption };
}
