//! Elements, as callers see them.
ghost use Rattle.std.specs.Prelude.{◌≡◌};
ghost use Rattle.der_c.specs.Elements.{element_in_c};

use der_show::Element;

/// An element, by its place in the bytes. Its content is the `content_len` bytes after its header.
#[repr(C)]
#[derive(Clone, Copy)]
pub struct PickyDerElement {
    /// The index of its first byte.
    pub offset: usize,
    /// How many bytes its tag and its length take.
    pub header_len: usize,
    /// How many bytes its content has.
    pub content_len: usize,
    /// How many elements are around it.
    pub depth: usize,
    /// The first byte: the class, the form and the number of its tag.
    pub tag: u8,
    /// The class of its tag: 0 universal, 1 application, 2 context-specific, 3 private.
    pub tag_class: u8,
    /// The number of its tag, from 0 to 30.
    pub tag_number: u8,
    /// Whether its content is made of elements.
    pub is_constructed: bool,
}

// The element as callers see it.
pub(crate) fn element_in_c(element: Element) -> PickyDerElement
    ensures { result ≡ element_in_c element }
{
    let tag = element.tag;
    PickyDerElement {
        offset: element.offset,
        header_len: element.header_len,
        content_len: element.content_len,
        depth: element.depth,
        tag: tag.inner(),
        tag_class: tag.inner() / 64,
        tag_number: tag.number(),
        is_constructed: tag.is_constructed(),
    }
}
