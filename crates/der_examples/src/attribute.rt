//! Attributes of requests and of signers.
mod derived;

use picky_asn1_der::Asn1RawDer;
use picky_asn1_der::asn1::{Asn1SetOf, ObjectIdentifierAsn1};

/// An attribute with its values, as a SEQUENCE (RFC 2986, 4.1, and RFC 5652, 5.3).
#[derive(Debug, Clone, Drop, PartialEq, Eq)]
pub struct Attribute {
    /// The content of the object identifier of its type.
    pub kind: ObjectIdentifierAsn1,
    /// The values, which are elements of any type.
    pub values: Asn1SetOf<Asn1RawDer>,
}
