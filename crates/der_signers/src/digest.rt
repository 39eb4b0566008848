//! Digest algorithms.
ghost use Rattle.std.specs.Prelude.{◌≡◌, ◌≤◌, IfOk, length};
ghost use Rattle.der_signers.specs.Digest.{digest_of, IsAlgorithmOf};

use der_types::ObjectIdentifier;
use md5::{Digest as Md5Digest, Md5};
use sha1::Sha1;
use sha2::{Digest, Sha224, Sha256, Sha384, Sha512, Sha512_224, Sha512_256};
use std::alloc::{AllocError, Global};

/// A digest algorithm that is computed here (RFC 1321, FIPS 180-4).
#[derive(Debug, Clone, Copy, PartialEq, Eq)]
pub enum DigestAlgorithm {
    /// MD5.
    Md5,
    /// SHA-1.
    Sha1,
    /// SHA-224.
    Sha224,
    /// SHA-256.
    Sha256,
    /// SHA-384.
    Sha384,
    /// SHA-512.
    Sha512,
    /// SHA-512/224.
    Sha512To224,
    /// SHA-512/256.
    Sha512To256,
}

// `id-md5`, 1.2.840.113549.2.5.
const MD5: &[u8] = &[0x2A, 0x86, 0x48, 0x86, 0xF7, 0x0D, 0x02, 0x05];

// `id-sha1`, 1.3.14.3.2.26.
const SHA1: &[u8] = &[0x2B, 0x0E, 0x03, 0x02, 0x1A];

// `id-sha224`, 2.16.840.1.101.3.4.2.4.
const SHA224: &[u8] = &[0x60, 0x86, 0x48, 0x01, 0x65, 0x03, 0x04, 0x02, 0x04];

// `id-sha256`, 2.16.840.1.101.3.4.2.1.
const SHA256: &[u8] = &[0x60, 0x86, 0x48, 0x01, 0x65, 0x03, 0x04, 0x02, 0x01];

// `id-sha384`, 2.16.840.1.101.3.4.2.2.
const SHA384: &[u8] = &[0x60, 0x86, 0x48, 0x01, 0x65, 0x03, 0x04, 0x02, 0x02];

// `id-sha512`, 2.16.840.1.101.3.4.2.3.
const SHA512: &[u8] = &[0x60, 0x86, 0x48, 0x01, 0x65, 0x03, 0x04, 0x02, 0x03];

// `id-sha512-224`, 2.16.840.1.101.3.4.2.5.
const SHA512_224: &[u8] = &[0x60, 0x86, 0x48, 0x01, 0x65, 0x03, 0x04, 0x02, 0x05];

// `id-sha512-256`, 2.16.840.1.101.3.4.2.6.
const SHA512_256: &[u8] = &[0x60, 0x86, 0x48, 0x01, 0x65, 0x03, 0x04, 0x02, 0x06];

impl DigestAlgorithm {
    /// Returns the algorithm with this object identifier (RFC 3370, 2; RFC 5754, 2; RFC 8017, B.1), or `None` if it
    /// isn't one of these.
    pub fn of(identifier: &ObjectIdentifier) -> Option<DigestAlgorithm>
        ensures { IsAlgorithmOf identifier.now result }
    {
        if identifier.is(SHA256) {
            Some(DigestAlgorithm::Sha256)
        } else if identifier.is(SHA1) {
            Some(DigestAlgorithm::Sha1)
        } else if identifier.is(SHA384) {
            Some(DigestAlgorithm::Sha384)
        } else if identifier.is(SHA512) {
            Some(DigestAlgorithm::Sha512)
        } else if identifier.is(SHA224) {
            Some(DigestAlgorithm::Sha224)
        } else if identifier.is(SHA512_224) {
            Some(DigestAlgorithm::Sha512To224)
        } else if identifier.is(SHA512_256) {
            Some(DigestAlgorithm::Sha512To256)
        } else if identifier.is(MD5) {
            Some(DigestAlgorithm::Md5)
        } else {
            None
        }
    }

    /// Returns the digest of these bytes. The only error is a failed allocation.
    pub fn digest(self, alloc: Global, bytes: &[u8]) -> Result<Vec<u8>, AllocError>
        ensures value { IfOk result (λ digest. digest.items ≡ digest_of self bytes.now) }
        ensures len { IfOk result (λ digest. length digest.items ≤ 64) }
    {
        match self {
            DigestAlgorithm::Md5 => Md5::digest(bytes).to_vec(alloc),
            DigestAlgorithm::Sha1 => Sha1::digest(bytes).to_vec(alloc),
            DigestAlgorithm::Sha224 => Sha224::digest(bytes).to_vec(alloc),
            DigestAlgorithm::Sha256 => Sha256::digest(bytes).to_vec(alloc),
            DigestAlgorithm::Sha384 => Sha384::digest(bytes).to_vec(alloc),
            DigestAlgorithm::Sha512 => Sha512::digest(bytes).to_vec(alloc),
            DigestAlgorithm::Sha512To224 => Sha512_224::digest(bytes).to_vec(alloc),
            DigestAlgorithm::Sha512To256 => Sha512_256::digest(bytes).to_vec(alloc),
        }
    }
}
