//! Bytes under a tag of their own, and the types of ASN.1 that are such bytes.
ghost use Rattle.std.specs.Prelude.{◌≡◌, IfOk, IfErr};

use crate::{Asn1DerError, Result};
use std::hash::Hash;

/// A content under the tag byte `TAG`. The content isn't checked. Whoever makes a value of a type below has to give it
/// bytes that are a content of that type.
#[derive(Debug, Clone, Drop, PartialEq, Eq, PartialOrd, Ord, Hash)]
pub struct TaggedBytes<const TAG: u8>(pub Vec<u8>);

/// A number in two's complement, most significant byte first (X.690, 8.3).
pub type IntegerAsn1 = TaggedBytes<0x02>;

/// A bit string: the number of unused bits of the last byte, and the bytes (8.6).
pub type BitStringAsn1 = TaggedBytes<0x03>;

/// An object identifier (8.19).
pub type ObjectIdentifierAsn1 = TaggedBytes<0x06>;

/// A text in UTF-8 (8.23).
pub type Utf8StringAsn1 = TaggedBytes<0x0C>;

/// A text of digits and spaces (8.23).
pub type NumericStringAsn1 = TaggedBytes<0x12>;

/// A text of letters, digits and a few signs (8.23).
pub type PrintableStringAsn1 = TaggedBytes<0x13>;

/// A text in ASCII (8.23).
pub type Ia5StringAsn1 = TaggedBytes<0x16>;

/// A time with a year of two digits (8.25).
pub type UtcTimeAsn1 = TaggedBytes<0x17>;

/// A time with a year of four digits (8.25).
pub type GeneralizedTimeAsn1 = TaggedBytes<0x18>;

/// A text of any registered character sets (8.23).
pub type GeneralStringAsn1 = TaggedBytes<0x1B>;

/// A text in UTF-16 without surrogates (8.23).
pub type BmpStringAsn1 = TaggedBytes<0x1E>;

impl<const TAG: u8> TaggedBytes<TAG> {
    /// A copy, on the same allocator. `OutOfMemory` if an allocation fails.
    pub fn clone(&self) -> Result<TaggedBytes<TAG>>
        ensures same { IfOk result (λ copy. copy.0.items ≡ self.now.0.items) }
        ensures memory { IfErr result (λ e. e ≡ Asn1DerError.OutOfMemory) }
    {
        Ok(TaggedBytes(self.0.clone()?))
    }
}

impl<const TAG: u8> From<Vec<u8>> for TaggedBytes<TAG> {
    ghost from_gives = { λ bytes tagged. tagged.0 ≡ bytes };

    fn from(bytes: Vec<u8>) -> TaggedBytes<TAG> {
        TaggedBytes(bytes)
    }
}
