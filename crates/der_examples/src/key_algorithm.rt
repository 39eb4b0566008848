//! An open type (ANY DEFINED BY): the identifier of an algorithm says which type its parameters have.
ghost use Rattle.std.proofs.Common.{rules};
ghost use Rattle.std.specs.Prelude.{◌≡◌, ◌↔◌, IsTrue, MatchOption};
ghost use Rattle.std.specs.Cmp.Rules.{comparing};
ghost use Rattle.std.specs.Ordering.{eq_of_both, on};
ghost use Rattle.picky_der_de.specs.Facts.{tested_facts};
ghost use Rattle.der_types.specs.declared.names.TheConstants.{RSA_ENCRYPTION, EC_PUBLIC_KEY};
ghost use Rattle.der_examples.specs.KeyAlgorithm.{element_of, is_null, is_curve};

use crate::RawAlgorithm;
use der_types::{Encoded, ObjectIdentifier, names};
use picky_asn1_der::misc::{ReadExt, WriteExt};
use picky_asn1_der::{
    Asn1DerError, Asn1RawDer, Deserialize, Deserializer, Result, Serialize, Serializer, TryVia,
    try_deserialize_as,
};

/// The parameters of a key's algorithm.
#[derive(Debug, Clone, Drop)]
pub enum KeyParameters {
    /// The parameters of `names::RSA_ENCRYPTION`: a NULL (RFC 3279, 2.3.1).
    Null(Encoded<()>),
    /// The parameters of `names::EC_PUBLIC_KEY`: the name of a curve (RFC 5480, 2.1.1).
    Curve(Encoded<ObjectIdentifier>),
    /// The parameters of every other algorithm: an element of any type, or none.
    Other(Option<Asn1RawDer>),
}

/// The algorithm of a key, as a SEQUENCE (RFC 5280, 4.1.1.2). Its parameters have the type that the identifier says.
/// Other parameters are `InvalidData`.
#[derive(Debug, Drop)]
pub struct KeyAlgorithm {
    identifier: ObjectIdentifier,
    parameters: KeyParameters,
    ghost null: { IsTrue (is_null parameters) ↔ (identifier.content.items ≡ RSA_ENCRYPTION.now) },
    ghost curve: { IsTrue (is_curve parameters) ↔ (identifier.content.items ≡ EC_PUBLIC_KEY.now) },
}

impl KeyParameters {
    // The element of the parameters, if there is one.
    fn element(&self) -> Option<&Asn1RawDer>
        ensures { MatchOption result (element_of self.now ≡ None)
            (λ it. element_of self.now ≡ Some it.now) }
    {
        match self {
            KeyParameters::Null(null) => Some(null.encoding()),
            KeyParameters::Curve(curve) => Some(curve.encoding()),
            KeyParameters::Other(element) => element.as_ref(),
        }
    }
}

impl KeyAlgorithm {
    /// Returns which algorithm it is.
    pub fn identifier(&self) -> &ObjectIdentifier
        ensures { result.now ≡ self.now.identifier }
    {
        &self.identifier
    }

    /// Returns its parameters.
    pub fn parameters(&self) -> &KeyParameters
        ensures value { result.now ≡ self.now.parameters }
        ensures null { IsTrue (is_null result.now)
            ↔ (self.now.identifier.content.items ≡ RSA_ENCRYPTION.now) }
        ensures curve { IsTrue (is_curve result.now)
            ↔ (self.now.identifier.content.items ≡ EC_PUBLIC_KEY.now) }
    {
        &self.parameters
    }
}

impl TryVia for KeyAlgorithm {
    type As = RawAlgorithm;

    ghost parts = { λ it. record { algorithm = it.identifier; parameters = element_of it.parameters } };

    fn try_from_parts(value: RawAlgorithm) -> Result<KeyAlgorithm> {
        let RawAlgorithm {
            algorithm: identifier,
            parameters,
        } = value;
        let parameters = match parameters {
            Some(element) if identifier.is(names::RSA_ENCRYPTION) => {
                KeyParameters::Null(Encoded::from_encoding(element)?)
            }
            Some(element) if identifier.is(names::EC_PUBLIC_KEY) => {
                KeyParameters::Curve(Encoded::from_encoding(element)?)
            }
            None if identifier.is(names::RSA_ENCRYPTION) => return Err(Asn1DerError::InvalidData),
            None if identifier.is(names::EC_PUBLIC_KEY) => return Err(Asn1DerError::InvalidData),
            other => KeyParameters::Other(other),
        };
        Ok(KeyAlgorithm {
            identifier,
            parameters,
        })
    }
}

impl PartialEq for KeyAlgorithm {
    ghost eq = { eq_of_both (on (λ it. it.identifier) ⟦<ObjectIdentifier as PartialEq>⟧.eq)
        (on (λ it. element_of it.parameters) ⟦<Option<Asn1RawDer> as PartialEq>⟧.eq) };

    ghost laws = { Prim.search (comparing, rules) };

    fn eq(&self, other: &KeyAlgorithm) -> bool {
        self.identifier == other.identifier
            && self.parameters.element() == other.parameters.element()
    }
}

impl Serialize for KeyAlgorithm {
    ghost meaning = { λ it. ⟦<RawAlgorithm as Serialize>⟧.meaning (⟦<KeyAlgorithm as TryVia>⟧.parts it) };

    fn serialize<W: WriteExt>(&self, serializer: &mut Serializer<W>) -> Result<usize> {
        match self.parameters.element() {
            Some(element) => (&self.identifier, element).serialize(serializer),
            None => (&self.identifier,).serialize(serializer),
        }
    }
}

impl Deserialize for KeyAlgorithm {
    ghost shape = { ⟦<RawAlgorithm as Deserialize>⟧.shape };

    ghost facts = { tested_facts ⟦<RawAlgorithm as Deserialize>⟧.facts ⟦<RawAlgorithm as Serialize>⟧.meaning
        ⟦<KeyAlgorithm as TryVia>⟧.parts };

    ghost proved = { Prim.assumption };

    fn deserialize<R: ReadExt>(deserializer: &mut Deserializer<R>) -> Result<KeyAlgorithm> {
        try_deserialize_as(deserializer)
    }
}
