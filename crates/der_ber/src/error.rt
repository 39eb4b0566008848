//! Why bytes aren't elements in BER.
ghost use Rattle.std.specs.Prelude.{◌≡◌};

use std::alloc::{AllocError, AllocFailed};

/// A rule of BER, or a limit of this crate, that an element breaks.
#[derive(Debug, Clone, Copy, PartialEq, Eq)]
pub enum BerRule {
    /// The bytes end in a tag or a length, or where an end-of-contents has to be (X.690, 8.1.3.6).
    CutHeader,
    /// The tag number is past 30 (8.1.2.4), which isn't supported.
    LongTag,
    /// The tag is 00 or 20, which no type has: an end-of-contents that ends no element, or that isn't 00 00 (8.1.5).
    EndOfContents,
    /// The first length byte is FF (8.1.3.5 c).
    ReservedLength,
    /// The length says more bytes than there are up to the end of the element around it.
    PastEnd,
    /// The element is primitive and has no definite length (8.1.3.2 a).
    IndefinitePrimitive,
    /// The element is constructed, and `MAX_DEPTH` elements are around it.
    TooDeep,
    /// The element is a string in parts, and an element in it has another tag than they have: that of BIT STRING in a
    /// BIT STRING (8.6.4.1), and of OCTET STRING in each other string (8.7.3.2, 8.23.3).
    WrongPart,
    /// The element is a BIT STRING in parts. One of them doesn't say how many bits are unused, from 0 to 7 (8.6.2.2),
    /// or has unused bits and isn't the last (8.6.4).
    UnusedBits,
}

/// Why bytes have no DER.
#[derive(Debug, Clone, Copy, PartialEq, Eq)]
pub enum BerError {
    /// An allocation failed, or the DER would have 2^64 bytes or more.
    OutOfMemory,
    /// The bytes aren't elements in BER.
    Broken {
        /// The index of the tag of the first element that breaks a rule, or where an element has to be and the bytes
        /// end.
        position: usize,
        /// The rule.
        rule: BerRule,
    },
}

/// Out of memory.
impl From<AllocError> for BerError {
    ghost use Rattle.der_ber.specs.declared.error.BerError.TheVariants.{OutOfMemory};

    ghost from_gives = { λ e k. k ≡ OutOfMemory };

    fn from(_error: AllocError) -> Self {
        Self::OutOfMemory
    }
}

/// Out of memory. The value that could not be stored is dropped.
impl<T: Drop> From<AllocFailed<T>> for BerError {
    ghost use Rattle.der_ber.specs.declared.error.BerError.TheVariants.{OutOfMemory};

    ghost from_gives = { λ e k. k ≡ OutOfMemory };

    fn from(_failed: AllocFailed<T>) -> Self {
        Self::OutOfMemory
    }
}
