//! Texts of the string types.
ghost use Rattle.std.specs.Prelude.{◌<◌};

use crate::value::{ValueForm, push_hexadecimal};
use der_program_base::{Line, push_quoted};
use picky_der_core::asn1::Tag;
use std::alloc::{AllocError, Global};

// Appends the text of an element with this universal tag in quotes, with a space before it. Bytes that are no text are
// appended in hexadecimal, and so is the content of a type that isn't a string type.
pub(crate) fn push_string(
    alloc: Global,
    line: &mut Line,
    form: ValueForm,
    tag: Tag,
    content: &[u8],
) -> Result<(), AllocError> {
    match tag.number() {
        7 | 12 | 18 | 19 | 21 | 22 | 25 | 26 | 27 => push_utf8(alloc, line, form, content),
        14 => push_printable(alloc, line, form, content),
        20 => push_latin1(alloc, line, form, content),
        28 => push_wide(alloc, line, form, content, 4),
        30 => push_wide(alloc, line, form, content, 2),
        _ => push_hexadecimal(line, form, content),
    }
}

// Appends bytes as text if they are visible characters of ASCII, and otherwise in hexadecimal.
pub(crate) fn push_printable(
    alloc: Global,
    line: &mut Line,
    form: ValueForm,
    content: &[u8],
) -> Result<(), AllocError> {
    if !content.is_empty() && content.iter().all(|byte| matches!(*byte, 0x20..=0x7E)) {
        push_utf8(alloc, line, form, content)
    } else {
        push_hexadecimal(line, form, content)
    }
}

// A text in UTF-8, or in ASCII.
fn push_utf8(
    alloc: Global,
    line: &mut Line,
    form: ValueForm,
    content: &[u8],
) -> Result<(), AllocError> {
    let Ok(text) = str::from_utf8(content) else {
        return push_hexadecimal(line, form, content);
    };
    if content.len() <= form.limit {
        return push_whole(line, text);
    }
    let mut shown = String::new(alloc);
    let mut count: usize = 0;
    for character in text.chars() {
        count = count.saturating_add(character.len_utf8());
        if count > form.limit {
            break;
        }
        shown.push(character)?;
    }
    push_cut(line, &shown)
}

// A text with a byte for each character: those of ASCII and the others of Latin-1, as most programs write a
// TeletexString.
fn push_latin1(
    alloc: Global,
    line: &mut Line,
    form: ValueForm,
    content: &[u8],
) -> Result<(), AllocError> {
    let mut text = String::new(alloc);
    for byte in content.iter().take(form.limit) {
        text.push(char::from(*byte))?;
    }
    push_decoded(line, form, content, &text)
}

// A text with `width` bytes for each character, the most significant one first.
fn push_wide(
    alloc: Global,
    line: &mut Line,
    form: ValueForm,
    content: &[u8],
    width: usize,
) -> Result<(), AllocError>
    requires { 0 < width }
{
    if !is_wide(content, width) {
        return push_hexadecimal(line, form, content);
    }
    let mut text = String::new(alloc);
    for bytes in content.chunks_exact(width).take(form.limit / width) {
        if let Some(character) = character_of(bytes) {
            text.push(character)?;
        }
    }
    push_decoded(line, form, content, &text)
}

// Whether the bytes are characters with this many bytes each.
fn is_wide(content: &[u8], width: usize) -> bool
    requires { 0 < width }
{
    content.len() % width == 0
        && content
            .chunks_exact(width)
            .all(|bytes| character_of(bytes).is_some())
}

// The character whose number these bytes are, the most significant one first.
fn character_of(bytes: &[u8]) -> Option<char> {
    match bytes {
        [a, b] => char::from_u32(u32::from(*a) * 256 + u32::from(*b)),
        [a, b, c, d] => char::from_u32(u32::from_be_bytes([*a, *b, *c, *d])),
        _ => None,
    }
}

// The text of a content, or of its first bytes if it is longer than what is written.
fn push_decoded(
    line: &mut Line,
    form: ValueForm,
    content: &[u8],
    text: &str,
) -> Result<(), AllocError> {
    if content.len() > form.limit {
        push_cut(line, text)
    } else {
        push_whole(line, text)
    }
}

// A text in quotes, with a space before it.
fn push_whole(line: &mut Line, text: &str) -> Result<(), AllocError> {
    line.push(' ')?;
    push_quoted(line, text)
}

// The same of a text that goes on.
fn push_cut(line: &mut Line, text: &str) -> Result<(), AllocError> {
    push_whole(line, text)?;
    line.push_str("..")
}
