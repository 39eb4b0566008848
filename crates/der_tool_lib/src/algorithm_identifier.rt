//! Which algorithm a public key is for.
ghost use Rattle.picky_der_core.specs.Tree.{ListKind, Tree};
ghost use Rattle.picky_der_core.specs.Shape.{Shape};
ghost use Rattle.picky_der_ser.specs.Meaning.{list_meaning};
ghost use Rattle.picky_der_de.specs.Facts.{plain_facts};
ghost use Rattle.der_tool_lib.specs.AlgorithmIdentifier.{elements};
ghost use Rattle.der_tool_lib.specs.AlgorithmIdentifierLaws.{algorithm_injective, algorithm_has_shape};

use picky_asn1_der::asn1::ObjectIdentifierAsn1;
use picky_asn1_der::misc::{ReadExt, WriteExt};
use picky_asn1_der::{Asn1RawDer, Deserialize, Deserializer, Result, Serialize, Serializer};

/// An algorithm and its parameters (RFC 5280, 4.1.1.2): a SEQUENCE of an OBJECT IDENTIFIER and, if there are
/// parameters, one element of any type.
///
/// If there are no parameters, nothing is written for them. That is different from NULL, which is an element like any
/// other.
#[derive(Debug, Drop, PartialEq, Eq)]
pub struct AlgorithmIdentifier {
    /// The content of the object identifier, which isn't checked.
    pub algorithm: ObjectIdentifierAsn1,

    /// The parameters, as one element of any type.
    pub parameters: Option<Asn1RawDer>,
}

impl Serialize for AlgorithmIdentifier {
    ghost meaning = { λ a. list_meaning ListKind.sequence Tree.raw (elements a) };

    fn serialize<W: WriteExt>(&self, serializer: &mut Serializer<W>) -> Result<usize> {
        (&self.algorithm, &self.parameters).serialize(serializer)
    }
}

impl Deserialize for AlgorithmIdentifier {
    ghost shape = { Shape.list_of ListKind.sequence Shape.raw };

    ghost facts = { plain_facts ⟦<Self as Serialize>⟧.meaning ⟦<Self as PartialEq>⟧.eq (record {
      has_shape = λ a r. algorithm_has_shape a r;
      injective = λ x y p q r e. algorithm_injective x y e;
      sound = tt;
      begun = λ x b h. h;
    }) };

    ghost proved = { Prim.assumption };

    fn deserialize<R: ReadExt>(deserializer: &mut Deserializer<R>) -> Result<AlgorithmIdentifier> {
        let mut members = deserializer.deserialize_seq()?;
        let algorithm = members.next_field::<ObjectIdentifierAsn1>()?;
        let parameters = members.next_element::<Asn1RawDer>()?;
        members.end()?;
        Ok(AlgorithmIdentifier {
            algorithm,
            parameters,
        })
    }
}
