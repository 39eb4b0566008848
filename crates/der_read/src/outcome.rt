//! The outcome of reading bytes as a certificate.
ghost use Rattle.std.specs.Prelude.{◌≡◌, ◌≢◌, ◌↔◌, IfOk, IsTrue};
ghost use Rattle.picky_der_core.specs.Encoding.{der};
ghost use Rattle.picky_der_core.specs.Readable.{IsWritable};
ghost use Rattle.der_read.specs.Outcome.{IsCertificate, IsNoCertificate, IsOutcome};

use crate::reported;
use der_x509::Certificate;
use picky_asn1_der::{Asn1DerError, DecodeError, Serialize, from_der, to_vec};
use std::alloc::{AllocError, Global};

/// A certificate that was read.
#[derive(Debug, Drop, PartialEq, Eq)]
pub struct Reading {
    /// The certificate.
    pub certificate: Certificate,
    /// Whether the certificate is written as the bytes that it was read from.
    pub is_same: bool,
}

/// The outcome of reading bytes as a certificate.
#[derive(Debug, Drop, PartialEq, Eq)]
pub enum Outcome {
    /// The bytes are a certificate.
    Read(Reading),
    /// The bytes don't begin with a certificate. The error isn't `OutOfMemory`.
    Refused(DecodeError),
    /// This many of the bytes are a certificate, and others follow.
    LeftOver(usize),
}

/// Reads bytes as a certificate, and writes the certificate again. The only error is a failed allocation.
///
/// It is proved that what was read is written as the same bytes. It is tested here nevertheless, and the program prints
/// the result of that test.
pub fn examine(alloc: Global, bytes: &[u8]) -> Result<Outcome, AllocError>
    ensures { IfOk result (IsOutcome bytes.now) }
{
    match from_der::<Certificate>(alloc, bytes) {
        Ok(certificate) => written_again(alloc, bytes, certificate),
        Err(refusal) => not_read(alloc, bytes, reported(refusal)?),
    }
}

// The outcome for bytes that are refused: a certificate with other bytes after it, or none.
fn not_read(alloc: Global, bytes: &[u8], refusal: DecodeError) -> Result<Outcome, AllocError>
    requires refused { IsNoCertificate bytes.now refusal }
    requires memory { refusal.error ≢ Asn1DerError.OutOfMemory }
    ensures { IfOk result (IsOutcome bytes.now) }
{
    let position = refusal.position;
    if let Err(front) = from_der::<Certificate>(alloc, &bytes[..position]) {
        reported(front)?;
        return Ok(Outcome::Refused(refusal));
    }
    Ok(Outcome::LeftOver(position))
}

// The outcome for the bytes of this certificate.
fn written_again(
    alloc: Global,
    bytes: &[u8],
    certificate: Certificate,
) -> Result<Outcome, AllocError>
    requires { IsCertificate bytes.now certificate }
    ensures { IfOk result (IsOutcome bytes.now) }
{
    let is_same = is_written_as(alloc, &certificate, bytes)?;
    Ok(Outcome::Read(Reading {
        certificate,
        is_same,
    }))
}

// Whether the encoding of the value is exactly these bytes.
fn is_written_as<T: Serialize>(alloc: Global, value: &T, bytes: &[u8]) -> Result<bool, AllocError>
    requires { IsWritable (T.meaning value.now) }
    ensures { IfOk result (λ same. IsTrue same ↔ (der (T.meaning value.now) ≡ bytes.now)) }
{
    match to_vec(alloc, value) {
        Ok(encoding) => Ok(encoding.as_slice() == bytes),
        Err(_) => Err(AllocError),
    }
}
