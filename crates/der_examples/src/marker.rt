//! A struct of structs.
mod derived;

use crate::{Named, Point};

/// A point with a label, as a SEQUENCE of the label and the point.
#[derive(Debug, Clone, Drop, PartialEq, Eq)]
pub struct Marker {
    /// A name and a number.
    pub label: Named<u8>,
    /// Where the point is.
    pub at: Point,
}
