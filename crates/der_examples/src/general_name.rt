//! A choice of nine.
mod derived;

use picky_asn1_der::Asn1RawDer;
use picky_asn1_der::asn1::{
    Asn1SetOf, ByteBuf, ExplicitContextTag4, Ia5StringAsn1, ImplicitContextTag1,
    ImplicitContextTag2, ImplicitContextTag6, ImplicitContextTag7, ImplicitContextTag8,
    ObjectIdentifierAsn1, TaggedBytes,
};

/// A distinguished name: sets of attributes, each with its type and its value (RFC 5280, 4.1.2.4).
pub type Name = Vec<Asn1SetOf<(ObjectIdentifierAsn1, Asn1RawDer)>>;

/// A general name of a certificate (RFC 5280, 4.2.1.6).
#[derive(Debug, Clone, Drop, PartialEq, Eq)]
pub enum GeneralName {
    /// `[0] IMPLICIT AnotherName`, by its content.
    OtherName(TaggedBytes<0xA0>),
    /// `[1] IMPLICIT IA5String`.
    Rfc822Name(ImplicitContextTag1<Ia5StringAsn1>),
    /// `[2] IMPLICIT IA5String`.
    DnsName(ImplicitContextTag2<Ia5StringAsn1>),
    /// `[3] IMPLICIT ORAddress`, by its content.
    X400Address(TaggedBytes<0xA3>),
    /// `[4] EXPLICIT Name`.
    DirectoryName(ExplicitContextTag4<Name>),
    /// `[5] IMPLICIT EDIPartyName`, by its content.
    EdiPartyName(TaggedBytes<0xA5>),
    /// `[6] IMPLICIT IA5String`.
    UniformResourceIdentifier(ImplicitContextTag6<Ia5StringAsn1>),
    /// `[7] IMPLICIT OCTET STRING`.
    IpAddress(ImplicitContextTag7<ByteBuf>),
    /// `[8] IMPLICIT OBJECT IDENTIFIER`.
    RegisteredId(ImplicitContextTag8<ObjectIdentifierAsn1>),
}
