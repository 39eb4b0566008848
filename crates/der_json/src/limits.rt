//! The constraints of values in JSON (X.680, 51), and those of their types in the library.
ghost use Rattle.std.specs.Prelude.{IfSome};
ghost use Rattle.serde_json.specs.Data.{Data};
ghost use Rattle.der_json.specs.Refusals.{IsMistake};

use crate::refusal::JsonMistake;
use der_schema::{Item, Kind, Node};
use picky_der_core::integer::{is_integer, number_of};
use serde_json::Value;

// What is wrong with a value of the type inside by the constraint that a kind is.
pub(crate) fn broken_constraint(nodes: &[Node], kind: Kind, json: &Value) -> Option<JsonMistake>
    ensures { IfSome result (λ mistake. (whole : Data) → IsMistake mistake whole) }
{
    let (is_kept, mistake) = match kind {
        Kind::InRange { least, most, .. } => {
            (is_number_in(json, least, most), JsonMistake::Number)
        }
        Kind::AtLeast { least, .. } => {
            (is_number_in(json, least, i128::MAX), JsonMistake::Number)
        }
        Kind::AtMost { most, .. } => (is_number_in(json, i128::MIN, most), JsonMistake::Number),
        Kind::Outside { least, most, .. } => {
            (!is_number_in(json, least, most), JsonMistake::Number)
        }
        Kind::Sized { least, most, node } => {
            let is_kept = match size_of(nodes, node, json) {
                Some(size) => least <= size && size <= most,
                None => true,
            };
            (is_kept, JsonMistake::Size)
        }
        Kind::Permitted { ranges, .. } => (has_only(json, ranges), JsonMistake::Character),
        _ => return None,
    };
    if is_kept { None } else { Some(mistake) }
}

// What is wrong with a content by the type that a kind without parts has in the library, or as DER.
pub(crate) fn broken_type(kind: Kind, content: &[u8], json: &Value) -> Option<JsonMistake>
    ensures { IfSome result (λ mistake. (whole : Data) → IsMistake mistake whole) }
{
    let (is_kept, mistake) = match kind {
        Kind::NamedInteger(items) => (is_number_of(items, json), JsonMistake::Number),
        Kind::Unsigned(bits) => (is_unsigned(bits, content), JsonMistake::Number),
        Kind::Signed(bits) => (is_signed(bits, content), JsonMistake::Number),
        Kind::NamedBits(_) => (ends_with_one(content), JsonMistake::LastBit),
        Kind::Character => (has_one_character(json), JsonMistake::Size),
        _ => return None,
    };
    if is_kept { None } else { Some(mistake) }
}

// Whether a number is in a range. Any text is one of more than 64 bits.
fn is_number_in(json: &Value, least: i128, most: i128) -> bool {
    let number = match (json.as_u64(), json.as_i64(), json.as_str()) {
        (Some(number), _, _) => i128::from(number),
        (_, Some(number), _) => i128::from(number),
        (_, _, Some(text)) => match text.parse::<i128>() {
            Ok(number) => number,
            Err(_) if text.starts_with('-') => i128::MIN,
            Err(_) => i128::MAX,
        },
        _ => return false,
    };
    least <= number && number <= most
}

fn is_number_of(items: &[Item], json: &Value) -> bool {
    for item in items {
        if json.as_u64() == Some(item.number) {
            return true;
        }
    }
    false
}

// Whether a content is that of a number from 0 on in so many bits.
fn is_unsigned(bits: u8, content: &[u8]) -> bool {
    if !is_integer(content) {
        return false;
    }
    let number: Option<u128> = number_of(content);
    match number {
        Some(number) => number.leading_zeros() + u32::from(bits) >= 128,
        None => false,
    }
}

// Whether a content is that of a number of either sign in so many bits with that of the sign.
fn is_signed(bits: u8, content: &[u8]) -> bool {
    if !is_integer(content) {
        return false;
    }
    let number: Option<i128> = number_of(content);
    match number {
        Some(number) => {
            let digits = if number < 0 { !number } else { number };
            digits.leading_zeros() + u32::from(bits) >= 129
        }
        None => false,
    }
}

// Whether the last bit of a content is 1, or it has none.
fn ends_with_one(content: &[u8]) -> bool {
    match content {
        [0x00] => true,
        [unused, .., last] => last.trailing_zeros() == u32::from(*unused),
        _ => false,
    }
}

fn has_one_character(json: &Value) -> bool {
    match json.as_str() {
        Some(text) => text.chars().count() == 1,
        None => false,
    }
}

// How many items a list has, bits a BIT STRING, bytes an OCTET STRING and characters a string.
fn size_of(nodes: &[Node], node: u16, json: &Value) -> Option<u64> {
    if let Some(array) = json.as_array() {
        return u64::try_from(array.len()).ok();
    }
    let Some(text) = json.as_str() else {
        return json.get("length").and_then(Value::as_u64);
    };
    if is_hexadecimal(nodes, node) {
        u64::try_from(text.len() / 2).ok()
    } else {
        u64::try_from(text.chars().count()).ok()
    }
}

// Whether the JSON of values of a node's type is a text of hexadecimal digits.
fn is_hexadecimal(nodes: &[Node], node: u16) -> bool {
    let mut index = node;
    while let Some(node) = nodes.get(usize::from(index)) {
        match node.kind {
            Kind::OctetString | Kind::AnyContent(_) => return true,
            kind => match kind.inner() {
                Some(inner) if inner < index => index = inner,
                _ => return false,
            },
        }
    }
    false
}

// Whether each character of a text is in one of these ranges.
fn has_only(json: &Value, ranges: &[(u32, u32)]) -> bool {
    let Some(text) = json.as_str() else {
        return false;
    };
    for character in text.chars() {
        if !is_in_one(character as u32, ranges) {
            return false;
        }
    }
    true
}

fn is_in_one(number: u32, ranges: &[(u32, u32)]) -> bool {
    for (least, most) in ranges {
        if *least <= number && number <= *most {
            return true;
        }
    }
    false
}
