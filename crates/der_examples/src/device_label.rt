//! A struct whose members have constraints.
mod derived;

use der_types::{Ia5String, InRange, NumericString, PrintableString, WithSize};

/// The label of a device, as a SEQUENCE. A value that isn't within the bounds of its member is `InvalidData`.
// asn1: exact, clone
#[derive(Debug, Drop, PartialEq, Eq)]
pub struct DeviceLabel {
    /// The country where it was made, `PrintableString (SIZE (2))`, as in `countryName` of X.520.
    pub country: WithSize<PrintableString, 2, 2>,
    /// The serial number, `INTEGER (0..65536)`.
    pub serial: InRange<u32, 0, 65536>,
    /// The number of the article, `NumericString`.
    pub article: NumericString,
    /// Where to get help, `SEQUENCE SIZE (1..4) OF IA5String`.
    pub contacts: WithSize<Vec<Ia5String>, 1, 4>,
}
