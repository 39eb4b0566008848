//! Structs under tags, as fields.
mod derived;

use crate::{Named, Point};
use picky_asn1_der::asn1::{ExplicitContextTag, ImplicitContextTag};

/// A label and a point that their tags distinguish: `[0] EXPLICIT` and `[1] IMPLICIT`.
#[derive(Debug, Clone, Drop, PartialEq, Eq)]
pub struct Tagged {
    /// A name and a number.
    pub label: ExplicitContextTag<Named<u8>, 0>,
    /// Where the point is.
    pub at: ImplicitContextTag<Point, 1>,
}
