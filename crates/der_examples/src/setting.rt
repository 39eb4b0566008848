//! A choice of three.
mod derived;

/// The value of a setting.
// asn1: exact
#[derive(Debug, Clone, Drop, PartialEq, Eq)]
pub enum Setting {
    /// An INTEGER.
    Number(u64),
    /// A UTF8String.
    Text(String),
    /// A SEQUENCE OF INTEGER.
    Numbers(Vec<u16>),
}
