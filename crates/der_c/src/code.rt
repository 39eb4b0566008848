//! The codes that functions return.
ghost use Rattle.std.specs.Prelude.{◌≡◌};
ghost use Rattle.der_c.specs.Codes.{error_code, rule_code};

use der_show::Rule;
use picky_der_core::Asn1DerError;

/// Yes, or done.
pub const PICKY_DER_OK: u32 = 0;

/// No: the bytes are cut short. Others after them could make them a message of the type.
pub const PICKY_DER_TRUNCATED: u32 = 1;

/// No: the bytes up to the one at the position begin no message of the type.
pub const PICKY_DER_INVALID: u32 = 2;

/// No, as with PICKY_DER_INVALID, but they may begin a message that isn't read here. Of a writer: what is asked for is
/// too large.
pub const PICKY_DER_UNSUPPORTED: u32 = 3;

/// Unknown: an allocation failed.
pub const PICKY_DER_NO_MEMORY: u32 = 4;

/// No, for another reason.
pub const PICKY_DER_OTHER: u32 = 5;

/// There is too little room, in an array or a buffer of the caller.
pub const PICKY_DER_NO_ROOM: u32 = 6;

/// All elements were gone over.
pub const PICKY_DER_END: u32 = 7;

/// The caller's place or start isn't one.
pub const PICKY_DER_NO_PLACE: u32 = 8;

/// No type has this number.
pub const PICKY_DER_UNKNOWN_TYPE: u32 = 9;

/// The type has no table, and so its messages have no JSON here, and no DER of their BER.
pub const PICKY_DER_NO_TABLE: u32 = 10;

/// The text isn't JSON of a message of the type, or the bytes aren't BER of one.
pub const PICKY_DER_NO_VALUE: u32 = 11;

/// Returns the code of an error.
pub(crate) fn error_code(error: Asn1DerError) -> u32
    ensures { result ≡ error_code error }
{
    match error {
        Asn1DerError::TruncatedData => PICKY_DER_TRUNCATED,
        Asn1DerError::InvalidData => PICKY_DER_INVALID,
        Asn1DerError::UnsupportedValue => PICKY_DER_UNSUPPORTED,
        Asn1DerError::OutOfMemory => PICKY_DER_NO_MEMORY,
        _ => PICKY_DER_OTHER,
    }
}

/// Returns the code of a rule that is broken, from 101 on.
pub(crate) fn rule_code(rule: Rule) -> u32
    ensures { result ≡ rule_code rule }
{
    match rule {
        Rule::CutHeader => 101,
        Rule::LongTag => 102,
        Rule::IndefiniteLength => 103,
        Rule::WideLength => 104,
        Rule::LongLength => 105,
        Rule::PastEnd => 106,
        Rule::EndOfContents => 107,
        Rule::NotPrimitive => 108,
        Rule::ConstructedString => 109,
        Rule::NotConstructed => 110,
        Rule::PrimitiveExternal => 111,
        Rule::PrimitiveEmbeddedPdv => 112,
        Rule::PrimitiveCharacterString => 113,
        Rule::BooleanSize => 114,
        Rule::BooleanValue => 115,
        Rule::EmptyInteger => 116,
        Rule::PaddedInteger => 117,
        Rule::UnusedCount => 118,
        Rule::UnusedBits => 119,
        Rule::NullContent => 120,
        Rule::ObjectIdentifier => 121,
        Rule::RelativeOid => 122,
        Rule::Utf8 => 123,
        Rule::UniversalString => 124,
        Rule::BmpString => 125,
        Rule::UtcTime => 126,
        Rule::GeneralizedTime => 127,
        Rule::SetOrder => 128,
    }
}
