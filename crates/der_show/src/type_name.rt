//! The names of tags.

use der_program_base::Line;
use picky_der_core::asn1::{Tag, TagClass};
use std::alloc::AllocError;

// Appends the name of a tag: the type of X.680 with this tag, or the class and the number, as `[0]`.
pub(crate) fn push_type_name(line: &mut Line, tag: Tag) -> Result<(), AllocError> {
    let number = tag.number();
    match tag.class() {
        TagClass::Universal => match universal_name(number) {
            Some(name) => line.push_str(name),
            None => write!(line, "[UNIVERSAL {number}]"),
        },
        TagClass::Application => write!(line, "[APPLICATION {number}]"),
        TagClass::ContextSpecific => write!(line, "[{number}]"),
        TagClass::Private => write!(line, "[PRIVATE {number}]"),
    }
}

// The type with this number (X.680, table 1).
fn universal_name(number: u8) -> Option<&'static str> {
    match number {
        1 => Some("BOOLEAN"),
        2 => Some("INTEGER"),
        3 => Some("BIT STRING"),
        4 => Some("OCTET STRING"),
        5 => Some("NULL"),
        6 => Some("OBJECT IDENTIFIER"),
        7 => Some("ObjectDescriptor"),
        8 => Some("EXTERNAL"),
        9 => Some("REAL"),
        10 => Some("ENUMERATED"),
        11 => Some("EMBEDDED PDV"),
        12 => Some("UTF8String"),
        13 => Some("RELATIVE-OID"),
        14 => Some("TIME"),
        16 => Some("SEQUENCE"),
        17 => Some("SET"),
        18..=30 => string_name(number),
        _ => None,
    }
}

// The string type, or the time, with this number.
fn string_name(number: u8) -> Option<&'static str> {
    match number {
        18 => Some("NumericString"),
        19 => Some("PrintableString"),
        20 => Some("TeletexString"),
        21 => Some("VideotexString"),
        22 => Some("IA5String"),
        23 => Some("UTCTime"),
        24 => Some("GeneralizedTime"),
        25 => Some("GraphicString"),
        26 => Some("VisibleString"),
        27 => Some("GeneralString"),
        28 => Some("UniversalString"),
        29 => Some("CHARACTER STRING"),
        30 => Some("BMPString"),
        _ => None,
    }
}
