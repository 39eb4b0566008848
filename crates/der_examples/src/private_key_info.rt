//! A private key with optional attributes.
mod derived;

use der_x509::AlgorithmIdentifier;
use picky_asn1_der::asn1::{ByteBuf, TaggedBytes};

/// A private key with its algorithm, as a SEQUENCE (RFC 5208, 5).
// asn1: clone
#[derive(Debug, Drop, PartialEq, Eq)]
pub struct PrivateKeyInfo {
    /// The version, 0.
    pub version: u8,
    /// The algorithm of the key.
    pub algorithm: AlgorithmIdentifier,
    /// The encoding of the key.
    pub key: ByteBuf,
    /// The attributes, as the content of a SET under the implicit tag 0.
    pub attributes: Option<TaggedBytes<0xA0>>,
}
