//! Contents that are signed.
mod derived;

use picky_asn1_der::asn1::{ByteBuf, ExplicitContextTag0, ObjectIdentifierAsn1};

/// The signed content, as a SEQUENCE (RFC 5652, 5.2).
#[derive(Debug, Clone, Drop, PartialEq, Eq)]
pub struct EncapsulatedContentInfo {
    /// The content of the object identifier of its type.
    pub content_type: ObjectIdentifierAsn1,
    /// The content. It is absent if it is sent separately.
    pub content: Option<ExplicitContextTag0<ByteBuf>>,
}
