//! A struct with lists.
mod derived;

use crate::Point;
use picky_asn1_der::asn1::{Asn1SetOf, ByteBuf, ExplicitContextTag};

/// A track through points, as a SEQUENCE.
// asn1: clone
#[derive(Debug, Drop, PartialEq, Eq)]
pub struct Track {
    /// Whether it leads back to the first point.
    pub closed: bool,
    /// The points, in order.
    pub points: Vec<Point>,
    /// The first and the last day of the year on which it is open.
    pub days: [u16; 2],
    /// Its names, under the tag `[0]`.
    pub names: ExplicitContextTag<Asn1SetOf<ByteBuf>, 0>,
}
