//! A choice of four, one of which is a list.
mod derived;

use picky_asn1_der::asn1::{ByteBuf, Ia5StringAsn1, ImplicitContextTag2};

/// The name of a host, in one of four forms.
// asn1: faithful
#[derive(Debug, Clone, Drop, PartialEq, Eq)]
pub enum Host {
    /// A UTF8String.
    Email(String),
    /// An IA5String under the implicit tag 2.
    Domain(ImplicitContextTag2<Ia5StringAsn1>),
    /// A SEQUENCE OF OCTET STRING.
    Owner(Vec<ByteBuf>),
    /// An OCTET STRING.
    Address(ByteBuf),
}
