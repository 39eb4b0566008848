//! Requests for certificates.
mod derived;

use crate::Attribute;
use der_x509::{Name, SubjectPublicKeyInfo};
use picky_asn1_der::asn1::{Asn1SetOf, ImplicitList0};

/// The signed part of a request for a certificate, as a SEQUENCE (RFC 2986, 4.1).
// asn1: clone
#[derive(Debug, Drop, PartialEq, Eq)]
pub struct CertificationRequestInfo {
    /// The version, 0.
    pub version: u8,
    /// Whom the certificate is for.
    pub subject: Name,
    /// The public key.
    pub public_key: SubjectPublicKeyInfo,
    /// The attributes of the request.
    pub attributes: ImplicitList0<Asn1SetOf<Attribute>>,
}
