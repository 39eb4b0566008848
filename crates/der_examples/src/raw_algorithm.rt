//! Identifiers of algorithms with parameters of any type.
mod derived;

use der_types::ObjectIdentifier;
use picky_asn1_der::Asn1RawDer;

// asn1: exact, faithful
/// The identifier of an algorithm with its parameters, as a SEQUENCE (RFC 5280, 4.1.1.2). Nothing in the parameters is
/// looked at.
#[derive(Debug, Clone, Drop, PartialEq, Eq)]
pub struct RawAlgorithm {
    /// Which algorithm it is.
    pub algorithm: ObjectIdentifier,
    /// The parameters, as one element.
    pub parameters: Option<Asn1RawDer>,
}
