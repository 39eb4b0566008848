//! Contents from JSON.
ghost use Rattle.std.specs.Prelude.{IfErr, IfOk};
ghost use Rattle.serde_json.specs.Data.{Data};
ghost use Rattle.serde_json.specs.View.{view};
ghost use Rattle.der_json.specs.Contents.{IsContentJson};
ghost use Rattle.der_json.specs.Refusals.{IsMistake, IsRefusal};

use crate::JsonError;
use crate::contents::content_value;
use crate::decimal::{integer_octets, number_octets};
use crate::part::Part;
use crate::refusal::{FromJsonError, JsonForm, JsonMistake};
use crate::same::is_same;
use der_schema::{Item, Kind};
use der_types::{Contents, LaterTime, ObjectIdentifier, OidError, RelativeOid};
use serde_json::Value;
use std::alloc::Global;

// The content of a value without parts, of which `to_json` writes this JSON.
pub(crate) fn content_octets(
    alloc: Global,
    kind: Kind,
    json: &Value,
) -> Result<Vec<u8>, FromJsonError>
    ensures ok { IfOk result (λ content. IsContentJson kind content.items (view json.now)) }
    ensures refused { IfErr result (IsRefusal (view json.now)) }
{
    let content = unchecked_octets(alloc, kind, json)?;
    let bytes = content.as_slice();
    let value = match content_value(alloc, kind, Part { bytes, place: 0 }) {
        Ok(value) => value,
        Err(JsonError::OutOfMemory) => return Err(FromJsonError::OutOfMemory),
        Err(_) => return Err(FromJsonError::of(alloc, mistake_in(kind))),
    };
    if is_same(&value, json) {
        Ok(content)
    } else {
        Err(FromJsonError::of(alloc, JsonMistake::Spelling))
    }
}

// What is wrong with a content that has the form of its kind, and that `to_json` refuses.
fn mistake_in(kind: Kind) -> JsonMistake
    ensures { (whole : Data) → IsMistake result whole }
{
    match kind {
        Kind::Integer | Kind::NamedInteger(_) | Kind::Unsigned(_) | Kind::Signed(_) => {
            JsonMistake::Number
        }
        Kind::RestrictedString(_) => JsonMistake::Character,
        kind => JsonMistake::Content(kind.name().unwrap_or("content")),
    }
}

// The content of a value without parts.
fn unchecked_octets(alloc: Global, kind: Kind, json: &Value) -> Result<Vec<u8>, FromJsonError>
    ensures { IfErr result (IsRefusal (view json.now)) }
{
    match kind {
        Kind::Boolean => boolean_octets(alloc, json),
        Kind::Integer | Kind::NamedInteger(_) | Kind::Unsigned(_) | Kind::Signed(_) => {
            integer_octets(alloc, json)
        }
        Kind::Enumerated(items) => item_octets(alloc, items, json),
        Kind::ExtensibleEnumerated(items) => match json {
            Value::String(_) => item_octets(alloc, items, json),
            _ => integer_octets(alloc, json),
        },
        Kind::BitString | Kind::NamedBits(_) => bits_octets(alloc, json),
        Kind::OctetString | Kind::AnyContent(_) => hexadecimal_octets(alloc, json),
        Kind::Null => null_octets(alloc, json),
        Kind::ObjectIdentifier => identifier_octets(alloc, json),
        Kind::RelativeOid => relative_octets(alloc, json),
        Kind::RestrictedString(tag) => string_octets(alloc, tag, json),
        Kind::LaterTime => later_octets(alloc, json),
        Kind::Utf8String | Kind::Character | Kind::GeneralizedTime | Kind::UtcTime => {
            Ok(text_of(alloc, json)?.as_bytes().to_vec(alloc)?)
        }
        _ => Err(FromJsonError::of(alloc, JsonMistake::Schema)),
    }
}

// The text that this JSON is.
fn text_of<'a>(alloc: Global, json: &'a Value) -> Result<&'a str, FromJsonError>
    ensures { IfErr result (IsRefusal (view json.now)) }
{
    match json.as_str() {
        Some(text) => Ok(text),
        None => Err(FromJsonError::of(alloc, JsonMistake::Form(JsonForm::Text))),
    }
}

fn boolean_octets(alloc: Global, json: &Value) -> Result<Vec<u8>, FromJsonError>
    ensures { IfErr result (IsRefusal (view json.now)) }
{
    let mut content = Vec::new(alloc);
    match json {
        Value::Bool(true) => content.push(0xFF)?,
        Value::Bool(false) => content.push(0x00)?,
        _ => {
            return Err(FromJsonError::of(alloc, JsonMistake::Form(JsonForm::Boolean)));
        }
    }
    Ok(content)
}

fn null_octets(alloc: Global, json: &Value) -> Result<Vec<u8>, FromJsonError>
    ensures { IfErr result (IsRefusal (view json.now)) }
{
    match json {
        Value::Null => Ok(Vec::new(alloc)),
        _ => Err(FromJsonError::of(alloc, JsonMistake::Form(JsonForm::Null))),
    }
}

// The number of the item with this name.
fn item_octets(
    alloc: Global,
    items: &'static [Item],
    json: &Value,
) -> Result<Vec<u8>, FromJsonError>
    ensures { IfErr result (IsRefusal (view json.now)) }
{
    let text = text_of(alloc, json)?;
    for item in items {
        if item.name == text {
            return Ok(number_octets(alloc, item.number)?);
        }
    }
    Err(FromJsonError::of(alloc, JsonMistake::Item))
}

// How many bits of the last byte are unused, and the bytes.
fn bits_octets(alloc: Global, json: &Value) -> Result<Vec<u8>, FromJsonError>
    ensures { IfErr result (IsRefusal (view json.now)) }
{
    let (Some(len), Some(value)) = (json.get("length"), json.get("value")) else {
        return Err(FromJsonError::of(alloc, JsonMistake::Form(JsonForm::Bits)));
    };
    let octets = match hexadecimal_octets(alloc, value) {
        Ok(octets) => octets,
        Err(error) => return Err(error.in_member(alloc, "value")),
    };
    let (Some(len), Ok(size)) = (len.as_u64(), u64::try_from(octets.len())) else {
        return Err(FromJsonError::of(alloc, JsonMistake::Length));
    };
    let unused = (8 - len % 8) % 8;
    if len / 8 + u64::from(unused > 0) != size {
        return Err(FromJsonError::of(alloc, JsonMistake::Length));
    }
    let mut content = Vec::new(alloc);
    content.push(unused as u8)?;
    content.extend_from_slice(&octets)?;
    Ok(content)
}

// The bytes of a text of hexadecimal digits.
pub(crate) fn hexadecimal_octets(alloc: Global, json: &Value) -> Result<Vec<u8>, FromJsonError>
    ensures { IfErr result (IsRefusal (view json.now)) }
{
    match hex::decode(alloc, text_of(alloc, json)?) {
        Ok(octets) => Ok(octets),
        Err(hex::FromHexError::OutOfMemory) => Err(FromJsonError::OutOfMemory),
        Err(_) => Err(FromJsonError::of(alloc, JsonMistake::Form(JsonForm::Hexadecimal))),
    }
}

fn identifier_octets(alloc: Global, json: &Value) -> Result<Vec<u8>, FromJsonError>
    ensures { IfErr result (IsRefusal (view json.now)) }
{
    match ObjectIdentifier::from_str(alloc, text_of(alloc, json)?) {
        Ok(identifier) => Ok(identifier.content().to_vec(alloc)?),
        Err(OidError::OutOfMemory) => Err(FromJsonError::OutOfMemory),
        Err(_) => Err(FromJsonError::of(alloc, mistake_in(Kind::ObjectIdentifier))),
    }
}

fn relative_octets(alloc: Global, json: &Value) -> Result<Vec<u8>, FromJsonError>
    ensures { IfErr result (IsRefusal (view json.now)) }
{
    match RelativeOid::from_str(alloc, text_of(alloc, json)?) {
        Ok(identifier) => Ok(identifier.content().to_vec(alloc)?),
        Err(OidError::OutOfMemory) => Err(FromJsonError::OutOfMemory),
        Err(_) => Err(FromJsonError::of(alloc, mistake_in(Kind::RelativeOid))),
    }
}

// A time of a year from 2050 on, without a fraction.
fn later_octets(alloc: Global, json: &Value) -> Result<Vec<u8>, FromJsonError>
    ensures { IfErr result (IsRefusal (view json.now)) }
{
    let text = text_of(alloc, json)?;
    match LaterTime::from_content(text.as_bytes().to_vec(alloc)?) {
        Some(_) => Ok(text.as_bytes().to_vec(alloc)?),
        None => Err(FromJsonError::of(alloc, mistake_in(Kind::LaterTime))),
    }
}

// The characters of a restricted string by its tag, each in one, two or four bytes.
fn string_octets(alloc: Global, tag: u8, json: &Value) -> Result<Vec<u8>, FromJsonError>
    ensures { IfErr result (IsRefusal (view json.now)) }
{
    let mut content = Vec::new(alloc);
    for character in text_of(alloc, json)?.chars() {
        let number = character as u32;
        match tag {
            0x1C => content.extend_from_slice(&number.to_be_bytes())?,
            0x1E => match u16::try_from(number) {
                Ok(number) => content.extend_from_slice(&number.to_be_bytes())?,
                Err(_) => return Err(FromJsonError::of(alloc, JsonMistake::Character)),
            },
            _ => match u8::try_from(number) {
                Ok(byte) => content.push(byte)?,
                Err(_) => return Err(FromJsonError::of(alloc, JsonMistake::Character)),
            },
        }
    }
    Ok(content)
}
