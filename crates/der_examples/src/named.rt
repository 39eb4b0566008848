//! A struct with a field of any type.
mod derived;

use picky_asn1_der::asn1::ByteBuf;

/// A value under a name, as a SEQUENCE of an OCTET STRING and the value.
#[derive(Debug, Clone, Drop, PartialEq, Eq)]
pub struct Named<T> {
    /// The bytes of the name.
    pub name: ByteBuf,
    /// The value.
    pub value: T,
}
