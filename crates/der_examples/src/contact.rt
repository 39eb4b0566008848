//! A choice of five.
mod derived;

use crate::EmailText;
use der_types::NumericString;

/// How to reach somebody, as a CHOICE of five.
#[derive(Debug, Clone, Drop, PartialEq, Eq)]
pub enum Contact {
    /// By e-mail, an IA5String.
    Email(EmailText),
    /// By telephone, the number as a NumericString.
    Telephone(NumericString),
    /// In a room, its number as an INTEGER.
    Room(u16),
    /// By post, the lines of the address as a SEQUENCE OF UTF8String.
    Post(Vec<String>),
    /// Not at all, a NULL.
    Nowhere(()),
}
