//! A struct with an element that is kept unchanged.
ghost use Rattle.std.specs.Prelude.{refl};
ghost use Rattle.picky_der_de.specs.MembersFacts.{struct_facts, sequence_of, sequence_shape};

use picky_asn1_der::misc::{ReadExt, WriteExt};
use picky_asn1_der::{
    Asn1RawDer, Deserialize, DeserializeMembers, Deserializer, Result, Serialize, SerializeMembers,
    Serializer, Struct, deserialize_struct_as,
};

/// A number, and an element that isn't checked.
#[derive(Debug, Drop, PartialEq, Eq)]
pub(crate) struct Kept {
    number: u8,
    element: Asn1RawDer,
}

type Members = (u8, Asn1RawDer, ());

impl Struct for Kept {
    type Members = Members;

    ghost parts = { λ it. (it.number, it.element, tt) };

    fn from_parts(members: Members) -> Kept {
        let (number, element, ()) = members;
        Kept { number, element }
    }
}

impl Serialize for Kept {
    ghost meaning = { sequence_of ⟦<Members as SerializeMembers>⟧.members ⟦<Self as Struct>⟧.parts };

    fn serialize<W: WriteExt>(&self, serializer: &mut Serializer<W>) -> Result<usize> {
        (&self.number, &self.element, ()).serialize_sequence(serializer)
    }
}

impl Deserialize for Kept {
    ghost shape = { sequence_shape ⟦<Members as DeserializeMembers>⟧.layout };

    ghost facts = { struct_facts ⟦<Members as DeserializeMembers>⟧.facts refl ⟦<Self as Struct>⟧.parts };

    fn deserialize<R: ReadExt>(deserializer: &mut Deserializer<R>) -> Result<Kept> {
        deserialize_struct_as(deserializer)
    }

    ghost proved = { Prim.assumption };
}
