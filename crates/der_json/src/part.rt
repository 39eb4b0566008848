//! Parts of a message.
ghost use Rattle.std.specs.Prelude.{◌≡◌, ◌++◌, ◌<◌, length, IfOk, OnOk};
ghost use Rattle.picky_der_core.specs.Element.{IsElement, tlv};
ghost use Rattle.picky_der_core.specs.Encoding.{plain_encoding};
ghost use Rattle.picky_der_core.specs.Wrapper.{wrapper_tag, wrapper_front};

use crate::JsonError;
use der_path::first_element;
use picky_der_core::asn1::{Tag, Wrapper};
use std::alloc::{AllocError, Global};

/// Bytes of a message.
#[derive(Clone, Copy)]
pub(crate) struct Part<'a> {
    /// The bytes.
    pub(crate) bytes: &'a [u8],
    /// How many bytes of the message are before them.
    pub(crate) place: usize,
}

impl<'a> Part<'a> {
    // The element at the front and the bytes after it, or `NoElement`.
    pub(crate) fn split(self) -> Result<(Part<'a>, Part<'a>), JsonError>
        ensures parts { IfOk result (λ parts. self.entry.bytes.now ≡ parts.0.bytes.now ++ parts.1.bytes.now) }
        ensures fewer { IfOk result (λ parts. length parts.1.bytes.now < length self.entry.bytes.now) }
    {
        let Some(element) = first_element(self.bytes) else {
            return Err(JsonError::NoElement(self.place));
        };
        let len = self.bytes.len().saturating_sub(element.after.len());
        let (first, after) = self.bytes.split_at(len);
        let place = self.place.saturating_add(len);
        Ok((
            Part {
                bytes: first,
                place: self.place,
            },
            Part {
                bytes: after,
                place,
            },
        ))
    }

    // `Ok` if the bytes are one element.
    pub(crate) fn element(self) -> Result<(), JsonError>
        ensures { OnOk result (IsElement self.entry.bytes.now) }
    {
        let Some(element) = first_element(self.bytes) else {
            return Err(JsonError::NoElement(self.place));
        };
        if element.after.is_empty() {
            Ok(())
        } else {
            Err(JsonError::Extra(self.place))
        }
    }

    // The content of the one element that these bytes are, or `OtherTag` if it has another tag.
    pub(crate) fn content_under(self, tag: Tag) -> Result<Part<'a>, JsonError>
        ensures { IfOk result (λ content. self.entry.bytes.now ≡ tlv tag content.bytes.now) }
    {
        let Some(element) = first_element(self.bytes) else {
            return Err(JsonError::NoElement(self.place));
        };
        if element.tag != tag {
            return Err(JsonError::OtherTag(self.place));
        }
        let len = self.bytes.len().saturating_sub(element.after.len());
        let end = self.place.saturating_add(len);
        if !element.after.is_empty() {
            return Err(JsonError::Extra(end));
        }
        Ok(Part {
            bytes: element.content,
            place: end.saturating_sub(element.content.len()),
        })
    }

    // The content of a plain value with this tag, of which the bytes have the header or not.
    pub(crate) fn content_of(self, tag: Tag, has_header: bool) -> Result<Part<'a>, JsonError>
        ensures { IfOk result (λ content. self.entry.bytes.now ≡ plain_encoding has_header tag content.bytes.now) }
    {
        if has_header {
            self.content_under(tag)
        } else {
            Ok(self)
        }
    }

    // What is in the one element of a wrapper that these bytes are.
    pub(crate) fn inside(self, wrapper: Wrapper) -> Result<Part<'a>, JsonError>
        ensures { IfOk result (λ inner. self.entry.bytes.now
            ≡ tlv (wrapper_tag wrapper) (wrapper_front wrapper ++ inner.bytes.now)) }
    {
        if !wrapper.has_tag_number() {
            return Err(JsonError::Schema);
        }
        let content = self.content_under(wrapper.tag())?;
        if !wrapper.counts_unused_bits() {
            return Ok(content);
        }
        let [0x00, bytes @ ..] = content.bytes else {
            return Err(JsonError::OtherContent(content.place));
        };
        Ok(Part {
            bytes,
            place: content.place.saturating_add(1),
        })
    }
}

// A vector of these bytes.
pub(crate) fn copied(alloc: Global, bytes: &[u8]) -> Result<Vec<u8>, AllocError>
    ensures { IfOk result (λ copied. copied.items ≡ bytes.now) }
{
    bytes.iter().copied().collect(alloc)
}
