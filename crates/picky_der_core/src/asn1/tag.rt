//! Identifier bytes (X.690, 8.1.2).
ghost use Rattle.std.specs.Prelude.{◌≡◌, ◌+◌, ◌≤◌, ◌↔◌, ℕ, IsTrue, IsBitSet};
ghost use Rattle.picky_der_core.specs.Tag.{class_of, number_of, is_constructed};

use std::hash::Hash;
use std::marker::Model;

/// The class of an identifier byte: its bits 8 and 7.
#[derive(Debug, Clone, Copy, PartialEq, Eq, PartialOrd, Ord, Hash)]
pub enum TagClass {
    /// Tags of X.680 itself.
    Universal = 0,
    /// Tags of one application.
    Application = 1,
    /// Tags of the members and alternatives of one type.
    ContextSpecific = 2,
    /// Tags of one enterprise.
    Private = 3,
}

/// An identifier byte: the class, whether it is constructed, and a number (X.690, 8.1.2).
///
/// The number is at most 30. 31, all five bits set, announces the long form, which isn't supported: writing or reading
/// such a tag returns `UnsupportedValue`.
#[derive(Debug, Clone, Copy, PartialEq, Eq, PartialOrd, Ord, Hash)]
pub struct Tag(u8);

impl Model for Tag {
    ghost Value = { ℕ };

    ghost view = { λ t. t.0 };

    ghost inverse = { λ n. record { 0 = n } };
}

impl Tag {
    /// The greatest number. 31 announces the long form.
    pub const MAX_NUMBER: u8 = 30;

    /// A BOOLEAN (X.690, 8.2).
    pub const BOOLEAN: Tag = Tag(0x01);

    /// An INTEGER (8.3).
    pub const INTEGER: Tag = Tag(0x02);

    /// A bit string (8.6).
    pub const BIT_STRING: Tag = Tag(0x03);

    /// An octet string (8.7).
    pub const OCTET_STRING: Tag = Tag(0x04);

    /// A NULL (8.8).
    pub const NULL: Tag = Tag(0x05);

    /// An object identifier (8.19).
    pub const OID: Tag = Tag(0x06);

    /// An ENUMERATED (8.4).
    pub const ENUMERATED: Tag = Tag(0x0A);

    /// A text in UTF-8 (8.23).
    pub const UTF8_STRING: Tag = Tag(0x0C);

    /// An object identifier relative to another one (8.20).
    pub const RELATIVE_OID: Tag = Tag(0x0D);

    /// A text of digits and spaces (8.23).
    pub const NUMERIC_STRING: Tag = Tag(0x12);

    /// A text of letters, digits and a few signs (8.23).
    pub const PRINTABLE_STRING: Tag = Tag(0x13);

    /// A text in the character sets of teletex (8.23).
    pub const TELETEX_STRING: Tag = Tag(0x14);

    /// A text in ASCII (8.23).
    pub const IA5_STRING: Tag = Tag(0x16);

    /// A time with a year of two digits (8.25).
    pub const UTC_TIME: Tag = Tag(0x17);

    /// A time with a year of four digits (8.25).
    pub const GENERALIZED_TIME: Tag = Tag(0x18);

    /// A text in ASCII without control characters (8.23).
    pub const VISIBLE_STRING: Tag = Tag(0x1A);

    /// A text of any registered character sets (8.23).
    pub const GENERAL_STRING: Tag = Tag(0x1B);

    /// A text in UTF-32 (8.23).
    pub const UNIVERSAL_STRING: Tag = Tag(0x1C);

    /// A text in UTF-16 without surrogates (8.23).
    pub const BMP_STRING: Tag = Tag(0x1E);

    /// A sequence (8.9), which is constructed.
    pub const SEQUENCE: Tag = Tag(0x30);

    /// A set (8.11), which is constructed.
    pub const SET: Tag = Tag(0x31);

    /// The constructed tag of the application class with this number, at most 30, as explicit tags have it.
    pub const fn application_constructed(number: u8) -> Tag
        requires { number ≤ 30 }
        ensures { result ≡ 0x60 + number }
    {
        Tag(0x60 | number)
    }

    /// The constructed context-specific tag with this number, at most 30, as explicit tags have it.
    pub const fn context_specific_constructed(number: u8) -> Tag
        requires { number ≤ 30 }
        ensures { result ≡ 0xA0 + number }
    {
        Tag(0xA0 | number)
    }

    /// The primitive context-specific tag with this number, at most 30, as implicit tags of plain values have it.
    pub const fn context_specific_primitive(number: u8) -> Tag
        requires { number ≤ 30 }
        ensures { result ≡ 0x80 + number }
    {
        Tag(0x80 | number)
    }

    /// The identifier byte.
    pub const fn inner(self) -> u8
        ensures { result ≡ self }
    {
        self.0
    }

    /// The class: bits 8 and 7.
    pub fn class(self) -> TagClass
        ensures { result ≡ class_of self }
    {
        match self.0 >> 6 {
            0 => TagClass::Universal,
            1 => TagClass::Application,
            2 => TagClass::ContextSpecific,
            _ => TagClass::Private,
        }
    }

    /// The number: the low five bits. 31 announces the long form.
    pub const fn number(self) -> u8
        ensures { result ≡ number_of self }
    {
        self.0 & 0x1F
    }

    /// Whether bits 8 and 7 are both clear.
    pub fn is_universal(self) -> bool
        ensures { IsTrue result ↔ (class_of self ≡ TagClass.Universal) }
    {
        self.class() == TagClass::Universal
    }

    /// Whether bit 7 alone of bits 8 and 7 is set.
    pub fn is_application(self) -> bool
        ensures { IsTrue result ↔ (class_of self ≡ TagClass.Application) }
    {
        self.class() == TagClass::Application
    }

    /// Whether bit 8 alone of bits 8 and 7 is set.
    pub fn is_context_specific(self) -> bool
        ensures { IsTrue result ↔ (class_of self ≡ TagClass.ContextSpecific) }
    {
        self.class() == TagClass::ContextSpecific
    }

    /// Whether bit 6 is clear: the content is a value's own.
    pub fn is_primitive(self) -> bool
        ensures { IsTrue result ↔ (¬ IsBitSet self 5) }
    {
        !self.is_constructed()
    }

    /// Whether bit 6 is set: the content is made of elements.
    pub const fn is_constructed(self) -> bool
        ensures set { IsTrue result ↔ IsBitSet self 5 }
        ensures bit { result ≡ is_constructed self }
    {
        self.0 & 0x20 != 0
    }
}

impl From<u8> for Tag {
    ghost from_gives = { λ byte tag. tag ≡ byte };

    fn from(byte: u8) -> Tag {
        Tag(byte)
    }
}
