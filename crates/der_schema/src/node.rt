//! The nodes of a schema.
use picky_der_core::asn1::Wrapper;

/// A type of ASN.1 as data: the type of a node, with all that it contains.
#[derive(Debug, Clone, Copy, PartialEq, Eq)]
pub struct Schema {
    /// The nodes, each after those that it names.
    pub nodes: &'static [Node],
    /// The index of the type's node.
    pub root: u16,
}

/// A type, which may name others by their indices in the same table. These come before its own.
#[derive(Debug, Clone, Copy, PartialEq, Eq)]
pub struct Node {
    /// Its name in its module, or `None` for a type that is written where it is used.
    pub name: Option<&'static str>,
    /// What it is.
    pub kind: Kind,
}

/// What a type is (X.680). A field `node` is the index of a type's node.
///
/// Tags and constraints are nodes of their own, around the node of what is inside.
#[derive(Debug, Clone, Copy, PartialEq, Eq)]
pub enum Kind {
    /// The type of another node, which has its own name (17).
    Reference(u16),
    /// BOOLEAN (18).
    Boolean,
    /// INTEGER of any size (19).
    Integer,
    /// INTEGER with names, where each value is one of these numbers (19.1).
    NamedInteger(&'static [Item]),
    /// INTEGER from 0 on, in so many bits.
    Unsigned(u8),
    /// INTEGER of either sign, in so many bits with that of the sign.
    Signed(u8),
    /// ENUMERATED (20).
    Enumerated(&'static [Item]),
    /// ENUMERATED with an extension marker, which has any number (20). The items are those of this version.
    ExtensibleEnumerated(&'static [Item]),
    /// BIT STRING (22).
    BitString,
    /// BIT STRING with names for bits, where zeros at the end don't count (22.7).
    NamedBits(&'static [Item]),
    /// OCTET STRING (23).
    OctetString,
    /// NULL (24).
    Null,
    /// OBJECT IDENTIFIER (32).
    ObjectIdentifier,
    /// RELATIVE-OID (33).
    RelativeOid,
    /// UTF8String (41).
    Utf8String,
    /// UTF8String of one character (41, 51.5).
    Character,
    /// Another string, by its identifier byte (41).
    RestrictedString(u8),
    /// GeneralizedTime (46).
    GeneralizedTime,
    /// UTCTime (47).
    UtcTime,
    /// GeneralizedTime of a year from 2050 on, without a fraction (RFC 5280, 4.1.2.5.2).
    LaterTime,
    /// Any content under this identifier byte.
    AnyContent(u8),
    /// Any element.
    AnyElement,
    /// An element in which there are elements at every depth, if it is constructed: an open type (X.681, 14.2), or ANY.
    WellFormedElement,
    /// SEQUENCE (25). SET (27) is one in the wrapper `ImplicitList(0x31)`.
    Sequence(&'static [Member]),
    /// CHOICE (29).
    Choice(&'static [Alternative]),
    /// SEQUENCE OF (26).
    SequenceOf(u16),
    /// SET OF (28).
    SetOf(u16),
    /// A type in a tag or a string, or with a tag in place of its own (31).
    Wrapped {
        wrapper: Wrapper,
        node: u16,
    },
    /// The content of a type under this identifier byte in place of its own (31).
    ContentUnder {
        tag: u8,
        node: u16,
    },
    /// Numbers from `least` to `most` (51.4).
    InRange {
        least: i128,
        most: i128,
        node: u16,
    },
    /// Numbers from `least` on (51.4).
    AtLeast {
        least: i128,
        node: u16,
    },
    /// Numbers up to `most` (51.4).
    AtMost {
        most: i128,
        node: u16,
    },
    /// Numbers that aren't from `least` to `most` (51.4).
    Outside {
        least: i128,
        most: i128,
        node: u16,
    },
    /// Of a size from `least` to `most` (51.5).
    Sized {
        least: u64,
        most: u64,
        node: u16,
    },
    /// A string of characters whose numbers are of these ranges (51.7).
    Permitted {
        ranges: &'static [(u32, u32)],
        node: u16,
    },
}

/// A name for a number: of an ENUMERATED or an INTEGER, or for the number of a bit.
#[derive(Debug, Clone, Copy, PartialEq, Eq)]
pub struct Item {
    /// The name.
    pub name: &'static str,
    /// The number.
    pub number: u64,
}

/// A member of a SEQUENCE (25.1).
#[derive(Debug, Clone, Copy, PartialEq, Eq)]
pub struct Member {
    /// Its name.
    pub name: &'static str,
    /// Whether it may be absent.
    pub presence: Presence,
    /// The index of its type's node.
    pub node: u16,
}

/// Whether a member may be absent (25.1).
#[derive(Debug, Clone, Copy, PartialEq, Eq)]
pub enum Presence {
    /// It is always there.
    Required,
    /// It may be absent.
    Optional,
    /// It is absent exactly where it has this value (X.690, 11.5), which its type can have.
    Default(DefaultValue),
    /// It is absent exactly where it has this number (X.690, 11.5), which its type in the library can't have.
    DefaultOf(DefaultValue),
}

/// The value of a member that is absent.
#[derive(Debug, Clone, Copy, PartialEq, Eq)]
pub enum DefaultValue {
    /// `TRUE`.
    True,
    /// `FALSE`.
    False,
    /// A number, or that of an item.
    Number(i128),
}

/// An alternative of a CHOICE (29.1).
#[derive(Debug, Clone, Copy, PartialEq, Eq)]
pub struct Alternative {
    /// Its name.
    pub name: &'static str,
    /// The index of its type's node.
    pub node: u16,
}
