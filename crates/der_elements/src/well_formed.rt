//! Goes over elements at every depth.
ghost use Rattle.std.specs.Prelude.{◌≡◌, ◌++◌, ◌↔◌, ◌<◌, ◌^◌, ℕ, IsTrue, IfSome, IfNone, IfOk};
ghost use Rattle.picky_der_core.specs.Element.{length_octets, IsPrefix};
ghost use Rattle.der_elements.specs.Fronts.{IsFront, HasNoFront};
ghost use Rattle.der_types.specs.WellFormed.{is_identifier, AreWellFormed, IsWellFormed};

use picky_der_core::asn1::Tag;
use picky_der_core::misc::Length;
use std::alloc::{AllocError, Global};

// The identifier bytes of the universal types: from BOOLEAN to ObjectDescriptor, EXTERNAL, REAL, ENUMERATED, EMBEDDED
// PDV, UTF8String, RELATIVE-OID, TIME, the reserved number 15 in both forms, SEQUENCE, SET, from NumericString to
// UniversalString, CHARACTER STRING and BMPString.
const UNIVERSAL_IDENTIFIERS: [u8; 31] = [
    0x01, 0x02, 0x03, 0x04, 0x05, 0x06, 0x07, 0x28, 0x09, 0x0A, 0x2B, 0x0C, 0x0D, 0x0E, 0x0F, 0x2F,
    0x30, 0x31, 0x12, 0x13, 0x14, 0x15, 0x16, 0x17, 0x18, 0x19, 0x1A, 0x1B, 0x1C, 0x3D, 0x1E,
];

// Whether encodings of some type have this identifier byte.
fn is_identifier(byte: u8) -> bool
    ensures { result ≡ is_identifier byte }
{
    UNIVERSAL_IDENTIFIERS.contains(&byte) || byte >= 0x40
}

// The length at the front of these bytes, and the bytes after it, or `None` if no length is there.
fn split_length(bytes: &[u8]) -> Option<(usize, &[u8])>
    ensures some { IfSome result (λ it. bytes.now ≡ length_octets it.0 ++ it.1.now) }
    ensures none { IfNone result ((n : ℕ) → n < 2 ^ 64 → IsPrefix (length_octets n) bytes.now → ⊥) }
{
    let mut rest = bytes;
    match Length::deserialized(&mut rest) {
        Ok(len) => Some((len, rest)),
        Err(_) => None,
    }
}

// The identifier byte and the content of the element at the front of these bytes, and the bytes after it, or `None` if
// no element is there.
fn split_element(bytes: &[u8]) -> Option<(u8, &[u8], &[u8])>
    ensures some { IfSome result (λ it. IsFront bytes.now it.0 it.1.now it.2.now) }
    ensures none { IfNone result (HasNoFront bytes.now) }
{
    let [first, others @ ..] = bytes else {
        return None;
    };
    let tag = Tag::from(*first);
    if tag.number() > Tag::MAX_NUMBER {
        return None;
    }
    let Some((len, rest)) = split_length(others) else {
        return None;
    };
    if len > rest.len() {
        return None;
    }
    let (content, after) = rest.split_at(len);
    Some((*first, content, after))
}

/// Returns whether the bytes are elements of DER, one after another, whatever their types. Each has a tag of the short
/// form, which is constructed exactly where its type's encodings are, and its length in the fewest bytes (X.690, 8.1
/// and 10). One that is constructed has such elements in it, at every depth. What is in the others isn't looked at.
///
/// The only error is a failed allocation. The stack doesn't grow with the depth.
pub fn are_well_formed(alloc: Global, bytes: &[u8]) -> Result<bool, AllocError>
    ensures { IfOk result (λ are. IsTrue are ↔ AreWellFormed bytes.now) }
{
    // What is after each element that is open, up to the end of the one around it.
    let mut later = Vec::new(alloc);
    let mut rest = bytes;
    loop {
        if rest.is_empty() {
            match later.pop() {
                Some(others) => rest = others,
                None => return Ok(true),
            }
            continue;
        }
        let Some((identifier, content, after)) = split_element(rest) else {
            return Ok(false);
        };
        if !is_identifier(identifier) {
            return Ok(false);
        }
        rest = after;
        if Tag::from(identifier).is_constructed() {
            if !after.is_empty() {
                later.push(after)?;
            }
            rest = content;
        }
    }
}

/// Returns whether the bytes are one such element. The only error is a failed allocation.
pub fn is_well_formed(alloc: Global, bytes: &[u8]) -> Result<bool, AllocError>
    ensures { IfOk result (λ is. IsTrue is ↔ IsWellFormed bytes.now) }
{
    match split_element(bytes) {
        Some((_, _, after)) if after.is_empty() => are_well_formed(alloc, bytes),
        _ => Ok(false),
    }
}
