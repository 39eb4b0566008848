//! A struct with a field of any type, and one that may be absent.
mod derived;

use picky_asn1_der::asn1::ExplicitContextTag0;

/// A value that may have a note, as a SEQUENCE of the value and, under the explicit tag 0, a UTF8String.
// asn1: faithful
#[derive(Debug, Clone, Drop, PartialEq, Eq)]
pub struct Noted<T> {
    /// The value.
    pub value: T,
    /// The note.
    pub note: Option<ExplicitContextTag0<String>>,
}
