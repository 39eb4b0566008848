//! The numbers of a public key.
mod derived;

use picky_asn1_der::asn1::IntegerAsn1;

/// A public key of RSA, as a SEQUENCE (RFC 8017, A.1.1).
#[derive(Debug, Clone, Drop, PartialEq, Eq)]
pub struct RsaPublicKey {
    /// The modulus, in two's complement, most significant byte first.
    pub modulus: IntegerAsn1,
    /// The exponent, in the same form.
    pub public_exponent: IntegerAsn1,
}
