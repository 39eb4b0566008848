//! A struct round another type.
mod derived;

use der_types::Integer;

/// The serial number of a thing, as an INTEGER.
// asn1: exact
#[derive(Debug, Clone, Drop, PartialEq, Eq)]
pub struct SerialNumber(pub Integer);
