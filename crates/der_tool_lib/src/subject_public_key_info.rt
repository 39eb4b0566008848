//! Public keys, as certificates hold them.
ghost use Rattle.std.specs.Prelude.{refl};
ghost use Rattle.picky_der_de.specs.MembersFacts.{struct_facts, sequence_of, sequence_shape};

use crate::AlgorithmIdentifier;
use picky_asn1_der::asn1::BitStringAsn1;
use picky_asn1_der::misc::{ReadExt, WriteExt};
use picky_asn1_der::{
    Deserialize, DeserializeMembers, Deserializer, Result, Serialize, SerializeMembers, Serializer,
    Struct, deserialize_struct_as,
};

/// A public key and the algorithm that it is for, as a SEQUENCE (RFC 5280, 4.1.2.7).
#[derive(Debug, Drop, PartialEq, Eq)]
pub struct SubjectPublicKeyInfo {
    /// What the key is for.
    pub algorithm: AlgorithmIdentifier,

    /// The content of the bit string, which isn't checked: a byte that says how many of the last bits are unused, then
    /// the key.
    pub subject_public_key: BitStringAsn1,
}

type Members = (AlgorithmIdentifier, BitStringAsn1, ());

impl Struct for SubjectPublicKeyInfo {
    type Members = Members;

    ghost parts = { λ it. (it.algorithm, it.subject_public_key, tt) };

    fn from_parts(members: Members) -> SubjectPublicKeyInfo {
        let (algorithm, subject_public_key, ()) = members;
        SubjectPublicKeyInfo {
            algorithm,
            subject_public_key,
        }
    }
}

impl Serialize for SubjectPublicKeyInfo {
    ghost meaning = { sequence_of ⟦<Members as SerializeMembers>⟧.members ⟦<Self as Struct>⟧.parts };

    fn serialize<W: WriteExt>(&self, serializer: &mut Serializer<W>) -> Result<usize> {
        (&self.algorithm, &self.subject_public_key, ()).serialize_sequence(serializer)
    }
}

impl Deserialize for SubjectPublicKeyInfo {
    ghost shape = { sequence_shape ⟦<Members as DeserializeMembers>⟧.layout };

    ghost facts = { struct_facts ⟦<Members as DeserializeMembers>⟧.facts refl ⟦<Self as Struct>⟧.parts };

    fn deserialize<R: ReadExt>(deserializer: &mut Deserializer<R>) -> Result<SubjectPublicKeyInfo> {
        deserialize_struct_as(deserializer)
    }

    ghost proved = { Prim.assumption };
}
