//! Signers and their signatures.
mod derived;

use crate::Attribute;
use der_x509::AlgorithmIdentifier;
use picky_asn1_der::Asn1RawDer;
use picky_asn1_der::asn1::{Asn1SetOf, ByteBuf, ImplicitList0, ImplicitList1};

/// A signer and the signature, as a SEQUENCE (RFC 5652, 5.3).
// asn1: clone
#[derive(Debug, Drop, PartialEq, Eq)]
pub struct SignerInfo {
    /// The version: 1, or 3 if `identifier` names a key.
    pub version: u8,
    /// The signer, as an element of any type.
    pub identifier: Asn1RawDer,
    /// The algorithm of the content's digest.
    pub digest_algorithm: AlgorithmIdentifier,
    /// More attributes that are signed. The signature is over `to_vec(alloc, &attributes.0)`, the SET OF attributes
    /// with its own tag.
    pub signed_attributes: Option<ImplicitList0<Asn1SetOf<Attribute>>>,
    /// The algorithm of the signature.
    pub signature_algorithm: AlgorithmIdentifier,
    /// The signature.
    pub signature: ByteBuf,
    /// Attributes that aren't signed.
    pub unsigned_attributes: Option<ImplicitList1<Asn1SetOf<Attribute>>>,
}
