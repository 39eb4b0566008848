//! Restricted strings (X.680, 41).
ghost use Rattle.std.specs.Prelude.{◌≡◌, IfOk, OnOk, string_bytes};
ghost use Rattle.std.specs.Str.{encode_utf8_all};
ghost use Rattle.serde_json.specs.View.{view};
ghost use Rattle.der_types.specs.CharacterStrings.{characters};
ghost use Rattle.der_types.specs.ContentTypes.{string_width};
ghost use Rattle.der_json.specs.Contents.{IsStringJson, IsWhole};

use crate::JsonError;
use crate::part::Part;
use der_types::character_sets::{Bmp, Ia5, Numeric, Printable, Universal, Visible};
use der_types::{CharacterSet, RestrictedString, Unicode, Width};
use picky_der_core::Asn1DerError;
use serde_json::Value;
use std::alloc::{AllocError, Global};

// The characters of the string type with this tag. Each byte of a type whose characters aren't known is the character
// with its number.
pub(crate) fn string_value(alloc: Global, tag: u8, content: Part<'_>) -> Result<Value, JsonError>
    ensures { IfOk result (λ value. IsStringJson tag content.entry.bytes.now (view value)) }
{
    if !are_allowed(tag, content.bytes) {
        return Err(JsonError::OtherContent(content.place));
    }
    let text = text_of(alloc, width_of(tag), content)?;
    Ok(Value::String(text))
}

// Whether these characters of one byte each are of the string type with this tag, as far as it says which it has.
fn are_allowed(tag: u8, bytes: &[u8]) -> bool {
    match tag {
        0x12 => are_of::<Numeric>(bytes),
        0x13 => are_of::<Printable>(bytes),
        0x16 => are_of::<Ia5>(bytes),
        0x1A => are_of::<Visible>(bytes),
        _ => true,
    }
}

fn are_of<S: CharacterSet>(bytes: &[u8]) -> bool {
    for byte in bytes {
        if !S::is_character(u32::from(*byte)) {
            return false;
        }
    }
    true
}

// How many bytes a character of the string type with this tag has (X.690, 8.23.7, 8.23.8).
fn width_of(tag: u8) -> Width
    ensures { result ≡ string_width tag }
{
    match tag {
        0x1C => Width::Four,
        0x1E => Width::Two,
        _ => Width::One,
    }
}

// The characters of a content, each of so many bytes.
fn text_of(alloc: Global, width: Width, content: Part<'_>) -> Result<String, JsonError>
    ensures text { IfOk result (λ text. string_bytes text
        ≡ encode_utf8_all (characters width content.entry.bytes.now)) }
    ensures whole { OnOk result (IsWhole width content.entry.bytes.now) }
{
    match width {
        Width::One => Ok(numbered(alloc, content.bytes)?),
        Width::Two => characters_of::<Bmp>(alloc, content),
        Width::Four => characters_of::<Universal>(alloc, content),
    }
}

// The characters of a content, all in the set.
fn characters_of<S: Unicode>(alloc: Global, content: Part<'_>) -> Result<String, JsonError>
    ensures text { IfOk result (λ text. string_bytes text
        ≡ encode_utf8_all (characters S.WIDTH content.entry.bytes.now)) }
    ensures whole { OnOk result (IsWhole S.WIDTH content.entry.bytes.now) }
{
    let string = match RestrictedString::<S>::from_bytes(alloc, content.bytes) {
        Ok(string) => string,
        Err(Asn1DerError::OutOfMemory) => return Err(JsonError::OutOfMemory),
        Err(_) => return Err(JsonError::OtherContent(content.place)),
    };
    Ok(string.to_string(alloc)?)
}

// The characters whose numbers are these bytes.
fn numbered(alloc: Global, bytes: &[u8]) -> Result<String, AllocError>
    ensures { IfOk result (λ text. string_bytes text ≡ encode_utf8_all bytes.now) }
{
    let mut text = String::new(alloc);
    let mut rest = bytes;
    while let [first, others @ ..] = rest {
        text.push(char::from(*first))?;
        rest = others;
    }
    Ok(text)
}
