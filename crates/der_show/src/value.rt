//! Contents in words.

use crate::key_usage::push_names;
use crate::push_object_identifier;
use crate::text::{push_printable, push_string};
use der_program_base::Line;
use der_types::{Contents, GeneralizedTime, ObjectIdentifier, RelativeOid, UtcTime};
use picky_der_core::asn1::{Tag, TagClass};
use picky_der_core::integer::{is_integer, number_of};
use std::alloc::{AllocError, Global};

// A BIT STRING whose content has at most this many bytes is written bit by bit.
const FEW_BITS: usize = 3;

// How a value is written.
#[derive(Clone, Copy)]
pub(crate) struct ValueForm {
    // At most this many bytes of the content are written, the first ones.
    pub(crate) limit: usize,
    // Whether the bits are those of the extension keyUsage.
    pub(crate) is_key_usage: bool,
}

// Appends the value of a primitive element with a space before it. Nothing is appended for NULL, or for an empty
// content that is no text.
pub(crate) fn push_value(
    alloc: Global,
    line: &mut Line,
    form: ValueForm,
    tag: Tag,
    content: &[u8],
) -> Result<(), AllocError> {
    match tag {
        Tag::BOOLEAN => push_boolean(line, content),
        Tag::INTEGER | Tag::ENUMERATED => push_integer(line, form, content),
        Tag::BIT_STRING => push_bits(line, form, content),
        Tag::OID => push_oid(alloc, line, form, content),
        Tag::RELATIVE_OID => push_relative_oid(alloc, line, form, content),
        Tag::UTC_TIME => push_utc_time(alloc, line, form, content),
        Tag::GENERALIZED_TIME => push_generalized_time(alloc, line, form, content),
        Tag::OCTET_STRING => push_hexadecimal(line, form, content),
        _ => match tag.class() {
            TagClass::Universal => push_string(alloc, line, form, tag, content),
            _ => push_printable(alloc, line, form, content),
        },
    }
}

fn push_boolean(line: &mut Line, content: &[u8]) -> Result<(), AllocError> {
    line.push_str(if content == [0x00].as_slice() {
        " FALSE"
    } else {
        " TRUE"
    })
}

// A number in decimal, or in hexadecimal if it has more than 128 bits.
fn push_integer(line: &mut Line, form: ValueForm, content: &[u8]) -> Result<(), AllocError> {
    if is_integer(content) {
        let number: Option<i128> = number_of(content);
        if let Some(number) = number {
            return write!(line, " {number}");
        }
    }
    push_hexadecimal(line, form, content)
}

// The bits: each if there are few, as `'101'B`, and else as bytes and how many of the last bits are unused. Bits with
// names get them.
fn push_bits(line: &mut Line, form: ValueForm, content: &[u8]) -> Result<(), AllocError> {
    let [unused, bytes @ ..] = content else {
        return Ok(());
    };
    if content.len() <= FEW_BITS {
        push_each_bit(line, *unused, bytes)?;
        if form.is_key_usage {
            push_names(line, bytes)?;
        }
        return Ok(());
    }
    push_hexadecimal(line, form, bytes)?;
    if *unused > 0 {
        write!(line, ", {unused} unused bits")?;
    }
    Ok(())
}

// The bits in quotes, without the unused ones.
fn push_each_bit(line: &mut Line, unused: u8, bytes: &[u8]) -> Result<(), AllocError> {
    line.push_str(" '")?;
    let count = (bytes.len().min(FEW_BITS) * 8).saturating_sub(usize::from(unused));
    for number in 0..count {
        let byte = bytes.get(number / 8).copied().unwrap_or(0);
        let is_set = (byte >> (7 - number % 8)) % 2 == 1;
        line.push(if is_set { '1' } else { '0' })?;
    }
    line.push_str("'B")
}

fn push_oid(
    alloc: Global,
    line: &mut Line,
    form: ValueForm,
    content: &[u8],
) -> Result<(), AllocError> {
    match ObjectIdentifier::from_content(content.to_vec(alloc)?) {
        Some(identifier) => {
            line.push(' ')?;
            push_object_identifier(line, &identifier)
        }
        None => push_hexadecimal(line, form, content),
    }
}

fn push_relative_oid(
    alloc: Global,
    line: &mut Line,
    form: ValueForm,
    content: &[u8],
) -> Result<(), AllocError> {
    match RelativeOid::from_content(content.to_vec(alloc)?) {
        Some(identifier) => write!(line, " {identifier}"),
        None => push_hexadecimal(line, form, content),
    }
}

fn push_utc_time(
    alloc: Global,
    line: &mut Line,
    form: ValueForm,
    content: &[u8],
) -> Result<(), AllocError> {
    match UtcTime::from_content(content.to_vec(alloc)?) {
        Some(time) => {
            let at = time.date_time();
            write!(line, " {at}")
        }
        None => push_printable(alloc, line, form, content),
    }
}

// A time with a fraction of a second is written as it is.
fn push_generalized_time(
    alloc: Global,
    line: &mut Line,
    form: ValueForm,
    content: &[u8],
) -> Result<(), AllocError> {
    let Some(time) = GeneralizedTime::from_content(content.to_vec(alloc)?) else {
        return push_printable(alloc, line, form, content);
    };
    match time.date_time() {
        Some(at) => write!(line, " {at}"),
        None => push_printable(alloc, line, form, content),
    }
}

// The bytes in hexadecimal, and dots if there are more.
pub(crate) fn push_hexadecimal(
    line: &mut Line,
    form: ValueForm,
    content: &[u8],
) -> Result<(), AllocError> {
    if content.is_empty() {
        return Ok(());
    }
    line.push(' ')?;
    for byte in content.iter().take(form.limit) {
        write!(line, "{byte:02X}")?;
    }
    if content.len() > form.limit {
        line.push_str("..")?;
    }
    Ok(())
}
