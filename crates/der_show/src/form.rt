//! Which types have a primitive encoding, and which a constructed one.
ghost use Rattle.std.specs.Prelude.{◌≡◌};
ghost use Rattle.der_show.specs.Contents.{form_rule, constructed_rule};

use crate::Rule;
use picky_der_core::asn1::Tag;

// The tags of types with a primitive encoding only, with the bit of a constructed one: BOOLEAN, INTEGER, NULL, OBJECT
// IDENTIFIER, REAL, ENUMERATED, RELATIVE-OID and TIME.
const PRIMITIVE_ALONE: [u8; 8] = [0x21, 0x22, 0x25, 0x26, 0x29, 0x2A, 0x2D, 0x2E];

// The tags of the string types, with that bit: BIT STRING, OCTET STRING, ObjectDescriptor, UTF8String, the types from
// NumericString to UniversalString, and BMPString. They include the times.
const STRINGS_IN_PARTS: [u8; 16] = [
    0x23, 0x24, 0x27, 0x2C, 0x32, 0x33, 0x34, 0x35, 0x36, 0x37, 0x38, 0x39, 0x3A, 0x3B, 0x3C, 0x3E,
];

/// Returns the rule about the form of an encoding that a tag breaks, or `None`.
pub fn form_rule(tag: Tag) -> Option<Rule>
    ensures { result ≡ form_rule tag }
{
    let byte = tag.inner();
    if byte == 0x00 || byte == 0x20 {
        Some(Rule::EndOfContents)
    } else if PRIMITIVE_ALONE.contains(&byte) {
        Some(Rule::NotPrimitive)
    } else if STRINGS_IN_PARTS.contains(&byte) {
        Some(Rule::ConstructedString)
    } else {
        constructed_rule(byte)
    }
}

// The rule that a tag of a primitive encoding breaks if its type has only constructed ones, or `None`.
fn constructed_rule(byte: u8) -> Option<Rule>
    ensures { result ≡ constructed_rule byte }
{
    match byte {
        0x08 => Some(Rule::PrimitiveExternal),
        0x0B => Some(Rule::PrimitiveEmbeddedPdv),
        0x10 | 0x11 => Some(Rule::NotConstructed),
        0x1D => Some(Rule::PrimitiveCharacterString),
        _ => None,
    }
}
