//! A structure of three fields.
ghost use Rattle.std.specs.Prelude.{refl};
ghost use Rattle.picky_der_de.specs.MembersFacts.{struct_facts, sequence_of, sequence_shape};

use picky_asn1_der::asn1::ByteBuf;
use picky_asn1_der::misc::{ReadExt, WriteExt};
use picky_asn1_der::{
    Deserialize, DeserializeMembers, Deserializer, Result, Serialize, SerializeMembers, Serializer,
    Struct, deserialize_struct_as,
};

/// A number, an octet string, and a pair, as a SEQUENCE.
#[derive(Debug, Drop, PartialEq, Eq)]
pub struct TestStruct {
    /// An INTEGER.
    pub number: u8,
    /// An OCTET STRING.
    pub vec: ByteBuf,
    /// A SEQUENCE of an INTEGER and a NULL.
    pub tuple: (usize, ()),
}

type Members = (u8, ByteBuf, (usize, ()), ());

impl Struct for TestStruct {
    type Members = Members;

    ghost parts = { λ it. (it.number, it.vec, it.tuple, tt) };

    fn from_parts(members: Members) -> TestStruct {
        let (number, vec, tuple, ()) = members;
        TestStruct { number, vec, tuple }
    }
}

impl Serialize for TestStruct {
    ghost meaning = { sequence_of ⟦<Members as SerializeMembers>⟧.members ⟦<Self as Struct>⟧.parts };

    fn serialize<W: WriteExt>(&self, serializer: &mut Serializer<W>) -> Result<usize> {
        (&self.number, &self.vec, &self.tuple, ()).serialize_sequence(serializer)
    }
}

impl Deserialize for TestStruct {
    ghost shape = { sequence_shape ⟦<Members as DeserializeMembers>⟧.layout };

    ghost facts = { struct_facts ⟦<Members as DeserializeMembers>⟧.facts refl ⟦<Self as Struct>⟧.parts };

    fn deserialize<R: ReadExt>(deserializer: &mut Deserializer<R>) -> Result<TestStruct> {
        deserialize_struct_as(deserializer)
    }

    ghost proved = { Prim.assumption };
}
