//! A choice, as a CHOICE of an INTEGER and a BOOLEAN (X.690, 8.13).
mod derived;

/// A number or a bool.
// asn1: faithful
#[derive(Debug, Clone, Drop, PartialEq, Eq)]
pub enum NumberOrFlag {
    /// An INTEGER.
    Number(u8),
    /// A BOOLEAN.
    Flag(bool),
}
