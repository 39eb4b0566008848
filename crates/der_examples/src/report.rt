//! A struct of sixteen fields.
mod derived;

use crate::{Gust, Moment};
use picky_asn1_der::asn1::{Asn1SetOf, ByteBuf, ExplicitContextTag, OctetStringAsn1Container};

/// The report of a weather station, as a SEQUENCE of sixteen members.
// asn1: clone
#[derive(Debug, Drop, PartialEq, Eq)]
pub struct Report {
    /// The name of the station.
    pub station: String,
    /// The number of the station.
    pub number: u32,
    /// When the report was made.
    pub moment: Moment,
    /// Whether nobody checked the report.
    pub automatic: bool,
    /// The height above the sea in meters. A report without it can't be read back, since the next member is also an
    /// INTEGER.
    pub height: Option<u16>, // asn1: element
    /// The air pressure in pascals.
    pub pressure: u32,
    /// The relative humidity in percent.
    pub humidity: u8,
    /// The number of the report.
    pub serial: u128,
    /// The station's mark.
    pub seal: ByteBuf,
    /// A grade of its quality.
    pub grade: char,
    /// A NULL.
    pub reserved: (),
    /// The first and the last day that the report covers.
    pub days: [u16; 2],
    /// Corrections, under the tag `[0]`.
    pub offsets: ExplicitContextTag<Vec<u16>, 0>,
    /// The authors, as a SET.
    pub authors: Asn1SetOf<ByteBuf>,
    /// Two values in an OCTET STRING.
    pub sealed: OctetStringAsn1Container<(u8, bool)>,
    /// The gusts.
    pub gusts: Vec<Gust>,
}
