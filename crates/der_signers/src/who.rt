//! Who a signer is.
ghost use Rattle.std.specs.Prelude.{IfOk};
ghost use Rattle.der_signers.specs.Who.{IsWho};

use der_cms::SignerIdentifier;
use der_program_base::Line;
use der_read::push_name;
use std::alloc::{AllocError, Global};

/// Who a signer is (RFC 5652, 5.3).
#[derive(Debug, Drop)]
pub enum Who {
    /// The issuer and the serial number of its certificate.
    Certificate(CertificateName),
    /// The key identifier.
    KeyIdentifier(Vec<u8>),
}

/// What tells a certificate from all others.
#[derive(Debug, Drop)]
pub struct CertificateName {
    /// The issuer's name, on one line.
    pub issuer: String,
    /// The content of the serial number, which is an INTEGER.
    pub serial_number: Vec<u8>,
}

/// Returns who a signer is. The only error is a failed allocation.
pub fn who_of(alloc: Global, signer: &SignerIdentifier) -> Result<Who, AllocError>
    ensures { IfOk result (IsWho signer.now) }
{
    match signer {
        SignerIdentifier::IssuerAndSerialNumber(certificate) => {
            let mut issuer = Line::new(alloc);
            push_name(alloc, &mut issuer, &certificate.issuer)?;
            let issuer = issuer.into_string();
            let serial_number = certificate.serial_number.content().to_vec(alloc)?;
            Ok(Who::Certificate(CertificateName {
                issuer,
                serial_number,
            }))
        }
        SignerIdentifier::SubjectKeyIdentifier(key) => {
            Ok(Who::KeyIdentifier(key.0.0.as_slice().to_vec(alloc)?))
        }
    }
}
