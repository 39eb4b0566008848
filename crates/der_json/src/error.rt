//! Why there is no JSON.

use std::alloc::{AllocError, AllocFailed};
use thiserror::Error;

/// Why bytes have no JSON by a schema. Each place is an index of a byte in the message.
#[derive(Debug, Clone, Copy, PartialEq, Eq, Error)]
pub enum JsonError {
    /// No element of DER begins at this place: it is cut short, its length isn't the shortest, or its tag number is
    /// past 30.
    #[error("no element at byte {0}")]
    NoElement(usize),
    /// The element at this place has another tag than its type.
    #[error("another tag at byte {0}")]
    OtherTag(usize),
    /// The content at this place isn't one of its type.
    #[error("another content at byte {0}")]
    OtherContent(usize),
    /// A number or an arc in the content at this place is too large.
    #[error("too large a number at byte {0}")]
    TooLarge(usize),
    /// The type has nothing more at this place.
    #[error("more than the type has at byte {0}")]
    Extra(usize),
    /// A node of the schema doesn't come after one that it names.
    #[error("a schema out of order")]
    Schema,
    /// An allocation failed.
    #[error("out of memory")]
    OutOfMemory,
}

/// Out of memory.
impl From<AllocError> for JsonError {
    fn from(_: AllocError) -> Self {
        JsonError::OutOfMemory
    }
}

/// Out of memory. The value that could not be stored is dropped.
impl<T: Drop> From<AllocFailed<T>> for JsonError {
    fn from(_: AllocFailed<T>) -> Self {
        JsonError::OutOfMemory
    }
}
