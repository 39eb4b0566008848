//! The texts of strings. The only error of each function is a failed allocation.
ghost use Rattle.std.specs.Prelude.{◌≡◌, IfOk, MatchOption, option_map, string_bytes};
ghost use Rattle.der_read.specs.Names.{ascii_text, bmp_text, IsString, string_text, universal_text, utf8_text};

use der_show::header_of;
use der_types::{BmpString, Contents, Ia5String, UniversalString};
use picky_der_core::asn1::Tag;
use std::alloc::{AllocError, Global};

const UTF8_STRING: u8 = 0x0C;

const UNIVERSAL_STRING: u8 = 0x1C;

const BMP_STRING: u8 = 0x1E;

// The tags of NumericString, PrintableString, TeletexString, IA5String and VisibleString.
const NARROW_STRINGS: [u8; 5] = [0x12, 0x13, 0x14, 0x16, 0x1A];

// The text of an element, or `None` if it isn't a string that names have, or has other characters.
pub(crate) fn text_of(alloc: Global, element: &[u8]) -> Result<Option<String>, AllocError>
    ensures { IfOk result (λ text. MatchOption text ((s : _) → IsString element.now s → ⊥)
        (λ s. IsString element.now (string_bytes s))) }
{
    let Ok(header) = header_of(element) else {
        return Ok(None);
    };
    let end = header.header_len + header.content_len;
    if end != element.len() {
        return Ok(None);
    }
    let content = &element[header.header_len..end];
    string_text(alloc, header.tag, content)
}

// The text of a string with this tag and content.
fn string_text(alloc: Global, tag: Tag, content: &[u8]) -> Result<Option<String>, AllocError>
    ensures { IfOk result (λ text. option_map string_bytes text ≡ string_text tag content.now) }
{
    let byte = tag.inner();
    if byte == UTF8_STRING {
        utf8_text(alloc, content)
    } else if NARROW_STRINGS.contains(&byte) {
        ascii_text(alloc, content)
    } else if byte == UNIVERSAL_STRING {
        universal_text(alloc, content)
    } else if byte == BMP_STRING {
        bmp_text(alloc, content)
    } else {
        Ok(None)
    }
}

// The text if it is UTF-8.
fn utf8_text(alloc: Global, content: &[u8]) -> Result<Option<String>, AllocError>
    ensures { IfOk result (λ text. option_map string_bytes text ≡ utf8_text content.now) }
{
    match str::from_utf8(content) {
        Ok(text) => Ok(Some(String::from_str(alloc, text)?)),
        Err(_) => Ok(None),
    }
}

// The text if it is ASCII.
fn ascii_text(alloc: Global, content: &[u8]) -> Result<Option<String>, AllocError>
    ensures { IfOk result (λ text. option_map string_bytes text ≡ ascii_text content.now) }
{
    match Ia5String::from_content(content.to_vec(alloc)?) {
        Some(string) => Ok(Some(String::from_str(alloc, string.as_str())?)),
        None => Ok(None),
    }
}

// The text of characters of four bytes, if the content is made of them.
fn universal_text(alloc: Global, content: &[u8]) -> Result<Option<String>, AllocError>
    ensures { IfOk result (λ text. option_map string_bytes text ≡ universal_text content.now) }
{
    match UniversalString::from_content(content.to_vec(alloc)?) {
        Some(string) => Ok(Some(format!(in alloc; "{string}")?)),
        None => Ok(None),
    }
}

// The text of characters of two bytes, if the content is made of them.
fn bmp_text(alloc: Global, content: &[u8]) -> Result<Option<String>, AllocError>
    ensures { IfOk result (λ text. option_map string_bytes text ≡ bmp_text content.now) }
{
    match BmpString::from_content(content.to_vec(alloc)?) {
        Some(string) => Ok(Some(format!(in alloc; "{string}")?)),
        None => Ok(None),
    }
}
