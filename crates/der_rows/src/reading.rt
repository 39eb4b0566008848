//! The calls of a deserializer that return one value.

use crate::calls::shown;
use picky_asn1_der::asn1::{ImplicitContextTag1, Newtype, Tag};
use picky_asn1_der::misc::ReadExt;
use picky_asn1_der::{Asn1DerError, Deserialize, Deserializer};
use std::alloc::{AllocError, Global};

/// The result of the call with this name. A call with a type gets `u8`, and names and lengths don't matter.
///
/// Each family of calls has a function of its own, and a call that isn't in it goes to the next family. A proof about
/// all calls in one `match` takes many times as long.
pub(crate) fn answer<R: ReadExt>(
    alloc: Global,
    de: &mut Deserializer<R>,
    name: &str,
) -> Result<String, AllocError> {
    match name.split_once(" ") {
        Some(("deserialize_tagged_bytes", byte)) => answer_tagged_bytes(alloc, de, byte),
        Some(("deserialize_newtype_struct", kind)) => answer_newtype(alloc, de, kind),
        _ => answer_number(alloc, de, name),
    }
}

// Numbers of up to 32 bits.
fn answer_number<R: ReadExt>(
    alloc: Global,
    de: &mut Deserializer<R>,
    name: &str,
) -> Result<String, AllocError> {
    match name {
        "deserialize_u8" => shown(alloc, &de.deserialize_u8()),
        "deserialize_u16" => shown(alloc, &de.deserialize_u16()),
        "deserialize_u32" => shown(alloc, &de.deserialize_u32()),
        _ => answer_wide_number(alloc, de, name),
    }
}

// Wider numbers.
fn answer_wide_number<R: ReadExt>(
    alloc: Global,
    de: &mut Deserializer<R>,
    name: &str,
) -> Result<String, AllocError> {
    match name {
        "deserialize_u64" => shown(alloc, &de.deserialize_u64()),
        "deserialize_u128" => shown(alloc, &de.deserialize_u128()),
        "usize" => shown(alloc, &usize::deserialize(de)),
        _ => answer_plain(alloc, de, name),
    }
}

// Bools and nulls.
fn answer_plain<R: ReadExt>(
    alloc: Global,
    de: &mut Deserializer<R>,
    name: &str,
) -> Result<String, AllocError> {
    match name {
        "deserialize_bool" => shown(alloc, &de.deserialize_bool()),
        "deserialize_unit" => shown(alloc, &de.deserialize_unit()),
        "deserialize_unit_struct" => shown(alloc, &de.deserialize_unit_struct("Nothing")),
        _ => answer_text(alloc, de, name),
    }
}

// Texts.
fn answer_text<R: ReadExt>(
    alloc: Global,
    de: &mut Deserializer<R>,
    name: &str,
) -> Result<String, AllocError> {
    match name {
        "deserialize_char" => shown(alloc, &de.deserialize_char()),
        "deserialize_str" => shown(alloc, &de.deserialize_str()),
        "deserialize_string" => shown(alloc, &de.deserialize_string()),
        _ => answer_bytes(alloc, de, name),
    }
}

// Octets and elements.
fn answer_bytes<R: ReadExt>(
    alloc: Global,
    de: &mut Deserializer<R>,
    name: &str,
) -> Result<String, AllocError> {
    match name {
        "deserialize_bytes" => shown(alloc, &de.deserialize_bytes()),
        "deserialize_byte_buf" => shown(alloc, &de.deserialize_byte_buf()),
        "deserialize_raw" => shown(alloc, &de.deserialize_raw()),
        _ => answer_look(alloc, de, name),
    }
}

// What is looked at or skipped.
fn answer_look<R: ReadExt>(
    alloc: Global,
    de: &mut Deserializer<R>,
    name: &str,
) -> Result<String, AllocError> {
    match name {
        "deserialize_identifier" => shown(alloc, &de.deserialize_identifier()),
        "deserialize_enum" => shown(alloc, &de.deserialize_enum("Any", &["list"])),
        "deserialize_ignored_any" => shown(alloc, &de.deserialize_ignored_any()),
        "is_human_readable" => shown(alloc, &de.is_human_readable()),
        _ => answer_part(alloc, de, name),
    }
}

// Values around others.
fn answer_part<R: ReadExt>(
    alloc: Global,
    de: &mut Deserializer<R>,
    name: &str,
) -> Result<String, AllocError> {
    match name {
        "deserialize_option" => shown(alloc, &de.deserialize_option::<u8>()),
        "deserialize_application 30" => shown(alloc, &de.deserialize_application::<u8>(30)),
        "ImplicitContextTag1<u8>" => shown(alloc, &ImplicitContextTag1::<u8>::deserialize(de)),
        "Vec<u8>" => shown(alloc, &Vec::<u8>::deserialize(de)),
        _ => answer_signed(alloc, de, name),
    }
}

// Signed numbers, which are refused.
fn answer_signed<R: ReadExt>(
    alloc: Global,
    de: &mut Deserializer<R>,
    name: &str,
) -> Result<String, AllocError> {
    match name {
        "deserialize_i8" => shown(alloc, &de.deserialize_i8()),
        "deserialize_i16" => shown(alloc, &de.deserialize_i16()),
        "deserialize_i32" => shown(alloc, &de.deserialize_i32()),
        "deserialize_i64" => shown(alloc, &de.deserialize_i64()),
        _ => answer_refused(alloc, de, name),
    }
}

// The other calls, which return no value.
fn answer_refused<R: ReadExt>(
    alloc: Global,
    de: &mut Deserializer<R>,
    name: &str,
) -> Result<String, AllocError> {
    match name {
        "deserialize_i128" => shown(alloc, &de.deserialize_i128()),
        "deserialize_map" => shown(alloc, &de.deserialize_map()),
        "refuse InvalidData" => shown(alloc, &de.refuse(Asn1DerError::InvalidData)),
        "refuse Message" => shown(alloc, &de.refuse(Asn1DerError::custom("too late"))),
        _ => String::from_str(alloc, "unknown call"),
    }
}

fn answer_tagged_bytes<R: ReadExt>(
    alloc: Global,
    de: &mut Deserializer<R>,
    byte: &str,
) -> Result<String, AllocError> {
    match byte.parse::<u8>() {
        Ok(byte) => shown(alloc, &de.deserialize_tagged_bytes(Tag::from(byte))),
        Err(_) => String::from_str(alloc, "unknown tag"),
    }
}

fn answer_newtype<R: ReadExt>(
    alloc: Global,
    de: &mut Deserializer<R>,
    kind: &str,
) -> Result<String, AllocError> {
    match newtype(kind) {
        Some(kind) => shown(alloc, &de.deserialize_newtype_struct::<u8>(kind)),
        None => String::from_str(alloc, "unknown newtype"),
    }
}

/// The newtype with this name.
pub(crate) fn newtype(name: &str) -> Option<Newtype> {
    match name {
        "Plain" => Some(Newtype::Plain),
        "OctetContainer" => Some(Newtype::OctetContainer),
        "BitContainer" => Some(Newtype::BitContainer),
        "Explicit(0)" => Some(Newtype::Explicit(0)),
        "Explicit(1)" => Some(Newtype::Explicit(1)),
        "Implicit(1)" => Some(Newtype::Implicit(1)),
        _ => None,
    }
}
