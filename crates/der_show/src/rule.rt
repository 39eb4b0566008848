//! The rules that bytes can break.
ghost use Rattle.std.specs.Prelude.{◌≡◌};
ghost use Rattle.der_show.specs.Rules.{is_of_der_alone};

use std::fmt;

/// A rule of DER that an element breaks, or a limit of this crate.
///
/// It prints as what is wrong, with the clause of X.690.
#[derive(Debug, Clone, Copy, PartialEq, Eq)]
pub enum Rule {
    /// The bytes end before the tag and the length do (8.1.1).
    CutHeader,
    /// The tag has the long form (8.1.2.4), which this crate doesn't read.
    LongTag,
    /// The length has the indefinite form (8.1.3.6), which DER doesn't allow (10.1).
    IndefiniteLength,
    /// The length has more than eight bytes, or its first byte is FF (8.1.3.5). This crate doesn't read such lengths.
    WideLength,
    /// The length isn't in the fewest bytes (10.1).
    LongLength,
    /// The content ends after the element around it, or after the input (8.1.4).
    PastEnd,
    /// The universal tag 0 is the tag of end-of-contents bytes, which only the indefinite form has (8.1.5).
    EndOfContents,
    /// A type with a primitive encoding has a constructed one (8.2.1, 8.3.1, 8.8.1, 8.19.1).
    NotPrimitive,
    /// A string type has a constructed encoding, which DER doesn't allow (10.2).
    ConstructedString,
    /// A SEQUENCE or a SET has a primitive encoding (8.9.1, 8.11.1).
    NotConstructed,
    /// An EXTERNAL has a primitive encoding (8.18).
    PrimitiveExternal,
    /// An EMBEDDED PDV has a primitive encoding (8.17).
    PrimitiveEmbeddedPdv,
    /// A CHARACTER STRING has a primitive encoding (8.24).
    PrimitiveCharacterString,
    /// The content of a BOOLEAN isn't one byte (8.2.1).
    BooleanSize,
    /// The content of a BOOLEAN is neither 00 nor FF (8.2.2, 11.1).
    BooleanValue,
    /// The content of an INTEGER or an ENUMERATED has no byte (8.3.1).
    EmptyInteger,
    /// The first nine bits of an INTEGER or an ENUMERATED are all 0 or all 1 (8.3.2).
    PaddedInteger,
    /// A BIT STRING doesn't begin with a number of unused bits: from 0 to 7, and 0 if no bits follow (8.6.2).
    UnusedCount,
    /// The unused bits of a BIT STRING aren't all 0 (11.2.1).
    UnusedBits,
    /// The content of a NULL isn't empty (8.8.2).
    NullContent,
    /// An OBJECT IDENTIFIER has no number, a number that begins with 80, or a number without an end (8.19.2).
    ObjectIdentifier,
    /// A RELATIVE-OID has no number, a number that begins with 80, or a number without an end (8.20.2).
    RelativeOid,
    /// A UTF8String isn't UTF-8 (8.23.10).
    Utf8,
    /// A UniversalString isn't a whole number of characters of four bytes (8.23.7).
    UniversalString,
    /// A BMPString isn't a whole number of characters of two bytes (8.23.8).
    BmpString,
    /// A UTCTime isn't `YYMMDDHHMMSSZ` (11.8).
    UtcTime,
    /// A GeneralizedTime isn't `YYYYMMDDHHMMSS[.f]Z` (11.7).
    GeneralizedTime,
    /// The members of a SET are neither in the order of their tags (10.3) nor in the order of their encodings (11.6).
    SetOrder,
}

impl Rule {
    /// Returns whether BER allows what breaks this rule (X.690, 10 and 11).
    pub fn is_of_der_alone(self) -> bool
        ensures { result ≡ is_of_der_alone self }
    {
        matches!(
            self,
            Rule::IndefiniteLength
                | Rule::LongLength
                | Rule::ConstructedString
                | Rule::BooleanValue
                | Rule::UnusedBits
                | Rule::SetOrder
        )
    }

    // What is wrong.
    pub(crate) fn words(self) -> &'static str {
        match self {
            Rule::CutHeader => "the bytes end within the header of an element",
            Rule::LongTag => "the tag number is above 30, which isn't read here",
            Rule::IndefiniteLength => "the length is indefinite",
            Rule::WideLength => "the length takes more than eight bytes, which aren't read here",
            Rule::LongLength => "the length isn't in the fewest bytes",
            Rule::PastEnd => "the content ends after the input or the element around it",
            Rule::EndOfContents => "end-of-contents bytes without an indefinite length",
            Rule::NotPrimitive => "the type's encoding isn't primitive",
            Rule::ConstructedString => "a string in parts",
            Rule::NotConstructed
            | Rule::PrimitiveExternal
            | Rule::PrimitiveEmbeddedPdv
            | Rule::PrimitiveCharacterString => "the type's encoding isn't constructed",
            Rule::BooleanSize => "a BOOLEAN isn't one byte",
            Rule::BooleanValue => "a BOOLEAN is neither 00 nor FF",
            Rule::EmptyInteger => "the number has no byte",
            Rule::PaddedInteger => "the first nine bits of the number are equal",
            Rule::UnusedCount => "no count of unused bits from 0 to 7",
            Rule::UnusedBits => "the unused bits aren't zero",
            Rule::NullContent => "a NULL has a content",
            Rule::ObjectIdentifier => "an arc has a needless 80 or no end, or there is none",
            Rule::RelativeOid => "an arc has a needless 80 or no end, or there is none",
            Rule::Utf8 => "the text isn't UTF-8",
            Rule::UniversalString => "the text isn't made of characters of four bytes",
            Rule::BmpString => "the text isn't made of characters of two bytes",
            Rule::UtcTime => "the time isn't a YYMMDDHHMMSSZ",
            Rule::GeneralizedTime => "the time isn't a YYYYMMDDHHMMSS[.f]Z",
            Rule::SetOrder => "the members of the set are in no order",
        }
    }

    // The clause of X.690.
    pub(crate) fn clause(self) -> &'static str {
        match self {
            Rule::CutHeader => "8.1.1",
            Rule::LongTag => "8.1.2.4",
            Rule::IndefiniteLength => "8.1.3.6, 10.1",
            Rule::WideLength => "8.1.3.5",
            Rule::LongLength => "10.1",
            Rule::PastEnd => "8.1.4",
            Rule::EndOfContents => "8.1.5",
            Rule::NotPrimitive => "8.2.1, 8.3.1, 8.8.1, 8.19.1",
            Rule::ConstructedString => "10.2",
            Rule::NotConstructed => "8.9.1, 8.11.1",
            Rule::PrimitiveExternal => "8.18",
            Rule::PrimitiveEmbeddedPdv => "8.17",
            Rule::PrimitiveCharacterString => "8.24",
            Rule::BooleanSize => "8.2.1",
            Rule::BooleanValue => "11.1",
            Rule::EmptyInteger => "8.3.1",
            Rule::PaddedInteger => "8.3.2",
            Rule::UnusedCount => "8.6.2",
            Rule::UnusedBits => "11.2.1",
            Rule::NullContent => "8.8.2",
            Rule::ObjectIdentifier => "8.19.2",
            Rule::RelativeOid => "8.20.2",
            Rule::Utf8 => "8.23.10",
            Rule::UniversalString => "8.23.7",
            Rule::BmpString => "8.23.8",
            Rule::UtcTime => "11.8",
            Rule::GeneralizedTime => "11.7",
            Rule::SetOrder => "10.3, 11.6",
        }
    }
}

impl fmt::Display for Rule {
    fn fmt<W: fmt::Write>(&self, f: &mut fmt::Formatter<W>) -> fmt::Result {
        let words = self.words();
        let clause = self.clause();
        write!(f, "{words} (X.690, {clause})")
    }
}
