//! Key usages, whose flags have names.

use crate::outcomes::Shown;
use der_fixtures::bytes_of;
use der_types::names;
use der_x509::{Certificate, KeyUsage, KeyUsageFlag};
use picky_der_core::Result as DerResult;
use picky_der_de::from_der;
use std::alloc::{AllocError, Global};

// The flags, with the names that RFC 5280, 4.2.1.3 gives them.
static FLAGS: [(&str, KeyUsageFlag); 9] = [
    ("digitalSignature", KeyUsageFlag::DigitalSignature),
    ("contentCommitment", KeyUsageFlag::ContentCommitment),
    ("keyEncipherment", KeyUsageFlag::KeyEncipherment),
    ("dataEncipherment", KeyUsageFlag::DataEncipherment),
    ("keyAgreement", KeyUsageFlag::KeyAgreement),
    ("keyCertSign", KeyUsageFlag::KeyCertSign),
    ("cRLSign", KeyUsageFlag::CrlSign),
    ("encipherOnly", KeyUsageFlag::EncipherOnly),
    ("decipherOnly", KeyUsageFlag::DecipherOnly),
];

/// The flags with these names, which are separated by spaces.
pub(crate) fn flags_of(alloc: Global, text: &str) -> Result<Vec<KeyUsageFlag>, AllocError> {
    let mut flags = Vec::new(alloc);
    for word in text.split(' ') {
        for (name, flag) in &FLAGS {
            if *name == word {
                flags.push(*flag)?;
            }
        }
    }
    Ok(flags)
}

// The names of the flags.
impl Shown for KeyUsage {
    fn shown(&self, alloc: Global) -> Result<String, AllocError> {
        let mut text = String::from_str(alloc, "flags")?;
        for (name, flag) in &FLAGS {
            if self.contains(*flag) {
                write!(text, " {name}")?;
            }
        }
        Ok(text)
    }
}

/// The names of the flags of the key usage of the certificate that these hexadecimal bytes encode.
pub(crate) fn of_certificate(alloc: Global, text: &str) -> Result<String, AllocError> {
    let bytes = match bytes_of(alloc, text) {
        Ok(bytes) => bytes,
        Err(error) => return format!(in alloc; "{error}"),
    };
    match usage_in(alloc, &bytes) {
        Ok(Some(usage)) => usage.shown(alloc),
        Ok(None) => String::from_str(alloc, "no usage"),
        Err(error) => format!(in alloc; "{error}"),
    }
}

// The key usage that a certificate has as an extension, or `None`.
fn usage_in(alloc: Global, bytes: &[u8]) -> DerResult<Option<KeyUsage>> {
    let certificate: Certificate = from_der(alloc, bytes)?;
    if let Some(extensions) = &certificate.tbs_certificate.extensions {
        for extension in extensions.0.get().iter() {
            if extension.extn_id.is(names::KEY_USAGE) {
                let usage: KeyUsage = from_der(alloc, &extension.extn_value.0)?;
                return Ok(Some(usage));
            }
        }
    }
    Ok(None)
}
