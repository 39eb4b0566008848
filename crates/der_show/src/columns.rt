//! The front of a line.
ghost use Rattle.std.specs.Prelude.{◌≡◌, IfOk, string_bytes};
ghost use Rattle.der_show.specs.Lines.{columns_text, form_text, front_text, complaint_front};

use crate::Element;
use picky_der_core::asn1::Tag;
use std::alloc::{AllocError, Global};

// Elements at greater depths are indented as at this one.
const DEEPEST: usize = 64;

// What is before the type of an element.
pub(crate) fn front_of_element(alloc: Global, element: &Element) -> Result<String, AllocError>
    ensures { IfOk result (λ text. string_bytes text ≡ front_text element.now) }
{
    let mut text = columns_of(alloc, element)?;
    text.push_str(form_word(element.tag))?;
    for _ in 0..element.depth.min(DEEPEST) {
        text.push_str("  ")?;
    }
    Ok(text)
}

// The offset, the depth and the lengths of an element.
fn columns_of(alloc: Global, element: &Element) -> Result<String, AllocError>
    ensures { IfOk result (λ text. string_bytes text ≡ columns_text element.now) }
{
    let offset = element.offset;
    let depth = element.depth;
    let header_len = element.header_len;
    let content_len = element.content_len;
    format!(in alloc; "{offset:>6} d={depth:<2} hl={header_len:<2} l={content_len:<6}")
}

// The word for the form of an encoding.
fn form_word(tag: Tag) -> &'static str
    ensures { result.now ≡ form_text tag }
{
    if tag.is_constructed() {
        " cons "
    } else {
        " prim "
    }
}

// What is before the rule that the bytes at an offset break.
pub(crate) fn front_of_complaint(alloc: Global, offset: usize) -> Result<String, AllocError>
    ensures { IfOk result (λ text. string_bytes text ≡ complaint_front offset) }
{
    format!(in alloc; "{offset:>6} not DER: ")
}
