//! A signed value of any type, and a struct with three of these.
mod derived;

use crate::{Point, Script};
use der_types::BitString;
use der_x509::AlgorithmIdentifier;

/// A value and its signature, as a SEQUENCE in the form of a certificate (RFC 5280, 4.1). The signature isn't verified.
#[derive(Debug, Clone, Drop, PartialEq, Eq)]
pub struct Signed<T> {
    /// The signed value.
    pub content: T,
    /// The algorithm of the signature.
    pub algorithm: AlgorithmIdentifier,
    /// The signature.
    pub signature: BitString,
}

/// Three signed values, as a SEQUENCE.
#[derive(Debug, Clone, Drop, PartialEq, Eq)]
pub struct Bundle {
    /// A number.
    pub number: Signed<u32>,
    /// A point.
    pub point: Signed<Point>,
    /// A list of commands.
    pub commands: Signed<Script>,
}
