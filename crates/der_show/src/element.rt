//! Elements of a listing.

use picky_der_core::asn1::Tag;

/// An element of the listed bytes, by its place in them.
#[derive(Debug, Clone, Copy, PartialEq, Eq)]
pub struct Element {
    /// The index of its tag.
    pub offset: usize,
    /// How many elements are around it.
    pub depth: usize,
    /// Its tag.
    pub tag: Tag,
    /// How many bytes its tag and its length take.
    pub header_len: usize,
    /// How many bytes its content has.
    pub content_len: usize,
}
