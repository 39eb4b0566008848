//! Encrypted bytes, with an optional version of the key.
mod derived;

use picky_asn1_der::asn1::{
    ByteBuf, ExplicitContextTag0, ExplicitContextTag1, ExplicitContextTag2,
};

/// Encrypted bytes, as a SEQUENCE (RFC 4120, 5.2.9).
#[derive(Debug, Clone, Drop, PartialEq, Eq)]
pub struct EncryptedData {
    /// The number of the encryption method. Only numbers from 0 on are read.
    pub etype: ExplicitContextTag0<u32>,
    /// The version of the key.
    pub kvno: Option<ExplicitContextTag1<u32>>,
    /// The encrypted bytes.
    pub cipher: ExplicitContextTag2<ByteBuf>,
}
