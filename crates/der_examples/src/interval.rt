//! A struct that is written and read member by member.
ghost use Rattle.std.specs.Prelude.{refl};
ghost use Rattle.picky_der_core.specs.Tree.{ListKind};
ghost use Rattle.picky_der_core.specs.Shape.{Shape};
ghost use Rattle.picky_der_de.specs.Facts.{ruled};
ghost use Rattle.picky_der_de.specs.RefusesBy.{unsaid};
ghost use Rattle.picky_der_de.specs.MembersFacts.{struct_facts, sequence_of};

use picky_asn1_der::misc::{ReadExt, WriteExt};
use picky_asn1_der::{
    Deserialize, DeserializeMembers, Deserializer, Result, Serialize, SerializeMembers, Serializer,
};

/// The numbers from one to another, as a SEQUENCE of two INTEGERs.
#[derive(Debug, Clone, Drop, PartialEq, Eq)]
pub struct Interval {
    /// The first number.
    pub first: u32,
    /// The last number.
    pub last: u32,
}

type Members = (u32, u32, ());

impl Serialize for Interval {
    ghost meaning = { sequence_of ⟦<Members as SerializeMembers>⟧.members (λ it. (it.first, it.last, tt)) };

    fn serialize<W: WriteExt>(&self, serializer: &mut Serializer<W>) -> Result<usize> {
        let mut members = serializer.serialize_struct("Interval", 2)?;
        members.serialize_field("first", &self.first)?;
        members.serialize_field("last", &self.last)?;
        members.end()
    }
}

impl Deserialize for Interval {
    ghost shape = { Shape.fields ListKind.sequence ⟦<Members as DeserializeMembers>⟧.layout };

    ghost facts = { ruled unsaid (struct_facts ⟦<Members as DeserializeMembers>⟧.facts refl (λ it. (it.first, it.last, tt))) };

    ghost proved = { Prim.assumption };

    fn deserialize<R: ReadExt>(deserializer: &mut Deserializer<R>) -> Result<Interval> {
        let mut members = deserializer.deserialize_seq()?;
        let first = members.next_field()?;
        let last = members.next_field()?;
        members.end()?;
        Ok(Interval { first, last })
    }
}
