//! Calls of one serializer, one after another.

use crate::calls::shown;
use crate::generated::widths::serialize_members;
use crate::reading::newtype;
use der_fixtures::{FailingWriter, WriterFault, text_of};
use picky_asn1_der::asn1::Tag;
use picky_asn1_der::misc::{Watched, WriteExt};
use picky_asn1_der::{Serializer, ser};
use std::alloc::{AllocError, Global};

/// The results of the calls, separated by `, `, and the bytes that reach a writer. The writer accepts one byte per call
/// and fails at the call with this number. Calls are counted from 1, and with 0 none fails.
pub(crate) fn answer(
    alloc: Global,
    failing: usize,
    refusal: WriterFault,
    names: &str,
) -> Result<String, AllocError> {
    let writer = Watched::new(FailingWriter::new(alloc, failing, refusal));
    let mut ser = Serializer::new_to_writer(alloc, writer);
    let answers = answer_each!(alloc; name in names, ", ", answer_call(alloc, &mut ser, name));
    let writer = ser.into_writer().into_inner();
    let row = text_of(alloc, writer.taken())?;
    format!(in alloc; "{answers} [{row}]")
}

fn answer_call<W: WriteExt>(
    alloc: Global,
    ser: &mut Serializer<W>,
    name: &str,
) -> Result<String, AllocError> {
    match name.split_once(" {") {
        Some((opening, calls)) => answer_sequence(alloc, ser, opening, calls),
        None => answer_plain(alloc, ser, name),
    }
}

// Bools and small numbers.
fn answer_plain<W: WriteExt>(
    alloc: Global,
    ser: &mut Serializer<W>,
    name: &str,
) -> Result<String, AllocError> {
    match name {
        "serialize_bool true" => shown(alloc, &ser.serialize_bool(true)),
        "serialize_u8 1" => shown(alloc, &ser.serialize_u8(1)),
        "serialize_u8 7" => shown(alloc, &ser.serialize_u8(7)),
        _ => answer_number(alloc, ser, name),
    }
}

// Greater numbers.
fn answer_number<W: WriteExt>(
    alloc: Global,
    ser: &mut Serializer<W>,
    name: &str,
) -> Result<String, AllocError> {
    match name {
        "serialize_u16 0x0102" => shown(alloc, &ser.serialize_u16(0x0102)),
        "serialize_u16 0x0203" => shown(alloc, &ser.serialize_u16(0x0203)),
        "serialize_u32 0x04050607" => shown(alloc, &ser.serialize_u32(0x0405_0607)),
        _ => answer_wide_number(alloc, ser, name),
    }
}

// Wider numbers.
fn answer_wide_number<W: WriteExt>(
    alloc: Global,
    ser: &mut Serializer<W>,
    name: &str,
) -> Result<String, AllocError> {
    match name {
        "serialize_u64 0x80" => shown(alloc, &ser.serialize_u64(0x80)),
        "serialize_u128 0" => shown(alloc, &ser.serialize_u128(0)),
        _ => answer_text(alloc, ser, name),
    }
}

// Texts and octets.
fn answer_text<W: WriteExt>(
    alloc: Global,
    ser: &mut Serializer<W>,
    name: &str,
) -> Result<String, AllocError> {
    match name {
        "serialize_char é" => shown(alloc, &ser.serialize_char('é')),
        "serialize_str Aé" => shown(alloc, &ser.serialize_str("Aé")),
        "serialize_bytes []" => shown(alloc, &ser.serialize_bytes(&[])),
        "serialize_bytes [08 09]" => shown(alloc, &ser.serialize_bytes(&[0x08, 0x09])),
        _ => answer_unit(alloc, ser, name),
    }
}

// Units and options.
fn answer_unit<W: WriteExt>(
    alloc: Global,
    ser: &mut Serializer<W>,
    name: &str,
) -> Result<String, AllocError> {
    match name {
        "serialize_unit" => shown(alloc, &ser.serialize_unit()),
        "serialize_unit_struct" => shown(alloc, &ser.serialize_unit_struct("Nothing")),
        "serialize_none" => shown(alloc, &ser.serialize_none()),
        "serialize_some 7" => shown(alloc, &ser.serialize_some(&7u8)),
        _ => answer_tag(alloc, ser, name),
    }
}

// The calls for tags, and the calls that write bytes unchanged.
fn answer_tag<W: WriteExt>(
    alloc: Global,
    ser: &mut Serializer<W>,
    name: &str,
) -> Result<String, AllocError> {
    if let Some(byte) = name.strip_prefix("serialize_tagged_bytes [AA] ") {
        return answer_tagged_bytes(alloc, ser, byte);
    }
    if let Some(kind) = name.strip_prefix("serialize_newtype_struct 7 ") {
        return answer_newtype(alloc, ser, kind);
    }
    answer_application(alloc, ser, name)
}

fn answer_tagged_bytes<W: WriteExt>(
    alloc: Global,
    ser: &mut Serializer<W>,
    byte: &str,
) -> Result<String, AllocError> {
    match byte.parse::<u8>() {
        Ok(byte) => shown(alloc, &ser.serialize_tagged_bytes(Tag::from(byte), &[0xAA])),
        Err(_) => String::from_str(alloc, "unknown tag"),
    }
}

fn answer_newtype<W: WriteExt>(
    alloc: Global,
    ser: &mut Serializer<W>,
    kind: &str,
) -> Result<String, AllocError> {
    match newtype(kind) {
        Some(kind) => shown(alloc, &ser.serialize_newtype_struct(kind, &7u8)),
        None => String::from_str(alloc, "unknown newtype"),
    }
}

// Application tags.
fn answer_application<W: WriteExt>(
    alloc: Global,
    ser: &mut Serializer<W>,
    name: &str,
) -> Result<String, AllocError> {
    match name {
        "serialize_application 7 30" => shown(alloc, &ser.serialize_application(30, &7u8)),
        "serialize_application None 10" => shown(
            alloc,
            &ser.serialize_application(10, &None::<u8>),
        ),
        _ => answer_raw(alloc, ser, name),
    }
}

// Bytes that are written unchanged.
fn answer_raw<W: WriteExt>(
    alloc: Global,
    ser: &mut Serializer<W>,
    name: &str,
) -> Result<String, AllocError> {
    match name {
        "serialize_raw []" => shown(alloc, &ser.serialize_raw(&[])),
        "serialize_raw [1F 81]" => shown(alloc, &ser.serialize_raw(&[0x1F, 0x81])),
        "is_human_readable" => shown(alloc, &ser.is_human_readable()),
        _ => answer_signed(alloc, ser, name),
    }
}

// Signed numbers, which have no encoding.
fn answer_signed<W: WriteExt>(
    alloc: Global,
    ser: &mut Serializer<W>,
    name: &str,
) -> Result<String, AllocError> {
    match name {
        "serialize_i8" => shown(alloc, &ser.serialize_i8(-1)),
        "serialize_i16" => shown(alloc, &ser.serialize_i16(-1)),
        "serialize_i32" => shown(alloc, &ser.serialize_i32(-1)),
        _ => answer_wide_signed(alloc, ser, name),
    }
}

// Wider signed numbers.
fn answer_wide_signed<W: WriteExt>(
    alloc: Global,
    ser: &mut Serializer<W>,
    name: &str,
) -> Result<String, AllocError> {
    match name {
        "serialize_i64" => shown(alloc, &ser.serialize_i64(-1)),
        "serialize_i128" => shown(alloc, &ser.serialize_i128(-1)),
        "serialize_map" => shown(alloc, &ser.serialize_map(None)),
        _ => answer_variant(alloc, ser, name),
    }
}

// Variants, which have no encoding either.
fn answer_variant<W: WriteExt>(
    alloc: Global,
    ser: &mut Serializer<W>,
    name: &str,
) -> Result<String, AllocError> {
    match name {
        "serialize_unit_variant" => shown(alloc, &ser.serialize_unit_variant("Choice", 0, "A")),
        "serialize_newtype_variant" => shown(
            alloc,
            &ser.serialize_newtype_variant("Choice", 0, "A", &7u8),
        ),
        "serialize_tuple_variant" => shown(
            alloc,
            &ser.serialize_tuple_variant("Choice", 0, "A", 2),
        ),
        "serialize_struct_variant" => shown(
            alloc,
            &ser.serialize_struct_variant("Choice", 0, "A", 2),
        ),
        _ => answer_members(alloc, ser, name),
    }
}

// Members of a sequence in one call.
fn answer_members<W: WriteExt>(
    alloc: Global,
    ser: &mut Serializer<W>,
    name: &str,
) -> Result<String, AllocError> {
    match serialize_members(ser, name) {
        Some(outcome) => shown(alloc, &outcome),
        None => String::from_str(alloc, "unknown call"),
    }
}

// The calls except `end`, which consumes the sequence.
fn add_members<W: WriteExt>(
    members: &mut ser::Sequence<'_, W>,
    calls: &str,
) -> Option<picky_asn1_der::Result<()>> {
    match calls {
        "serialize_element 1; drop}" => Some(members.serialize_element(&1u8)),
        "serialize_element 7; end}" => Some(members.serialize_element(&7u8)),
        "serialize_field 7; end}" => Some(members.serialize_field("number", &7u8)),
        "serialize_element 7; serialize_element 5; end}" => {
            let first = members.serialize_element(&7u8);
            Some(first.and(members.serialize_element(&5u8)))
        }
        _ => None,
    }
}

fn ended(
    alloc: Global,
    added: picky_asn1_der::Result<()>,
    end: picky_asn1_der::Result<usize>,
) -> Result<String, AllocError> {
    format!(in alloc; "{added:?}; {end:?}")
}

// What the calls of the opened sequence return, and its end. No function may take a sequence by value, so it is ended
// where it is.
fn answer_sequence<W: WriteExt>(
    alloc: Global,
    ser: &mut Serializer<W>,
    opening: &str,
    calls: &str,
) -> Result<String, AllocError> {
    match opened(ser, opening) {
        Some(Ok(mut members)) => {
            let Some(added) = add_members(&mut members, calls) else {
                return String::from_str(alloc, "unknown member");
            };
            if calls.ends_with("drop}") {
                return format!(in alloc; "{added:?}; dropped");
            }
            ended(alloc, added, members.end())
        }
        Some(Err(error)) => shown(alloc, &error),
        None => String::from_str(alloc, "unknown sequence"),
    }
}

// The sequence that this call opens. The names and lengths don't matter.
fn opened<'a, W: WriteExt>(
    ser: &'a mut Serializer<W>,
    opening: &str,
) -> Option<picky_asn1_der::Result<ser::Sequence<'a, W>>> {
    match opening {
        "serialize_seq" => Some(ser.serialize_seq(Some(2))),
        "serialize_tuple" => Some(ser.serialize_tuple(0)),
        "serialize_tuple_struct" => Some(ser.serialize_tuple_struct("Seven", 3)),
        "serialize_struct" => Some(ser.serialize_struct("Seven", usize::MAX)),
        "serialize_set" => Some(ser.serialize_set()),
        "serialize_lazy" => Some(Ok(ser::Sequence::serialize_lazy(ser, Tag::SEQUENCE))),
        _ => None,
    }
}
