//! Signed contents.
mod derived;

use crate::{EncapsulatedContentInfo, SignerInfo};
use der_x509::AlgorithmIdentifier;
use picky_asn1_der::Asn1RawDer;
use picky_asn1_der::asn1::{Asn1SetOf, ImplicitList0, ImplicitList1};

/// A content and its signatures, as a SEQUENCE (RFC 5652, 5.1).
// asn1: clone
#[derive(Debug, Drop, PartialEq, Eq)]
pub struct SignedData {
    /// The version.
    pub version: u8,
    /// The algorithms of the content's digests.
    pub digest_algorithms: Asn1SetOf<AlgorithmIdentifier>,
    /// The signed content.
    pub content: EncapsulatedContentInfo,
    /// Certificates, elements of any type.
    pub certificates: Option<ImplicitList0<Asn1SetOf<Asn1RawDer>>>,
    /// Lists of revoked certificates, elements of any type.
    pub revocation_lists: Option<ImplicitList1<Asn1SetOf<Asn1RawDer>>>,
    /// The signers.
    pub signer_infos: Asn1SetOf<SignerInfo>,
}
