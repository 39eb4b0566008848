//! The bits of the extension keyUsage (RFC 5280, 4.2.1.3).

use crate::header_of;
use der_program_base::Line;
use picky_der_core::asn1::Tag;
use std::alloc::AllocError;

// The OBJECT IDENTIFIER keyUsage, 2.5.29.15.
const KEY_USAGE: &[u8] = &[0x06, 0x03, 0x55, 0x1D, 0x0F];

// The BOOLEAN that says that an extension is critical.
const CRITICAL: &[u8] = &[0x01, 0x01, 0xFF];

// The names of the bits, from bit 0 on.
static NAMES: [&str; 9] = [
    "digitalSignature",
    "nonRepudiation",
    "keyEncipherment",
    "dataEncipherment",
    "keyAgreement",
    "keyCertSign",
    "cRLSign",
    "encipherOnly",
    "decipherOnly",
];

// Returns the index of the BIT STRING in the extension keyUsage whose identifier is at the front of these bytes, or
// `None` if none is.
pub(crate) fn bits_after_header(ahead: &[u8]) -> Option<usize> {
    let after = ahead.strip_prefix(KEY_USAGE)?;
    let (value, skipped) = match after.strip_prefix(CRITICAL) {
        Some(value) => (value, KEY_USAGE.len() + CRITICAL.len()),
        None => (after, KEY_USAGE.len()),
    };
    match header_of(value) {
        Ok(header) if header.tag == Tag::OCTET_STRING => {
            Some(header.header_len.saturating_add(skipped))
        }
        _ => None,
    }
}

// Appends the names of the bits that are set, each with a space before it.
pub(crate) fn push_names(line: &mut Line, bytes: &[u8]) -> Result<(), AllocError> {
    for (number, name) in NAMES.iter().enumerate() {
        if is_set(bytes, number) {
            line.push(' ')?;
            line.push_str(name)?;
        }
    }
    Ok(())
}

// Whether the bit with this number is set. Bit 0 is the most significant bit of the first byte (X.690, 8.6.2).
fn is_set(bytes: &[u8], number: usize) -> bool {
    match bytes.get(number / 8) {
        Some(byte) => (*byte >> (7 - number % 8)) % 2 == 1,
        None => false,
    }
}
