//! What the lines of a listing are about.

use crate::{Complaint, Element};

/// What a line of a listing is about.
#[derive(Debug, Clone, Copy, PartialEq, Eq)]
pub enum Entry {
    /// An element.
    Element(Element),
    /// A rule that the bytes at an offset break.
    Complaint(Complaint),
}
