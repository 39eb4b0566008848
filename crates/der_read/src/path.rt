//! Where in a message an error is: by the names of its type if there is a schema of it, or by numbers. The only error
//! of each function is a failed allocation.
ghost use Rattle.std.specs.Prelude.{IfOk, string_bytes};
ghost use Rattle.der_read.specs.Paths.{IsNamedPath, IsNumberedPath, IsNumbersText, IsPathAt, IsPathOf};

use crate::schema::schema_of;
use crate::{MessageType, refusal_of};
use der_error_path::path_of_error;
use der_path::{path_at, text_of};
use der_schema::Schema;
use der_show::{Cause, Reason, complaint_of, reason_of};
use std::alloc::{AllocError, Global};

// What is printed after the reason for which bytes were refused as a message of a type, after so many of them: the path
// of the element. Nothing is printed of bytes after a message.
pub(crate) fn path_text(
    alloc: Global,
    named: MessageType,
    bytes: &[u8],
    position: usize,
    reason: &Reason,
) -> Result<String, AllocError> {
    if reason.cause == Cause::BytesAfter {
        return Ok(String::new(alloc));
    }
    match schema_of(named) {
        Some(schema) => by_names(alloc, schema, bytes, position, reason.cause),
        None => path_by_numbers(alloc, bytes, reason.offset),
    }
}

// The path by names, and what is wrong there, if the bytes are elements in DER.
fn by_names(
    alloc: Global,
    schema: Schema,
    bytes: &[u8],
    position: usize,
    cause: Cause,
) -> Result<String, AllocError> {
    let path = path_of_error(alloc, schema, bytes, position)?;
    let names = path.names(alloc)?;
    let wrong = match cause {
        Cause::NotDer(_) => String::new(alloc),
        _ => path.reason(alloc, schema)?,
    };
    match (names.is_empty(), wrong.is_empty()) {
        (true, true) => Ok(String::new(alloc)),
        (true, false) => format!(in alloc; "; {wrong}"),
        (false, true) => format!(in alloc; "; at {names}"),
        (false, false) => format!(in alloc; "; {names}: {wrong}"),
    }
}

/// Returns what is printed of the element at this offset after a reason: its path by numbers, as `; element 0.2.1`, or
/// nothing of the first element. The only error is a failed allocation.
pub fn path_by_numbers(alloc: Global, bytes: &[u8], offset: usize) -> Result<String, AllocError>
    ensures { IfOk result (λ text. IsNumbersText bytes.now offset (string_bytes text)) }
{
    if offset == 0 {
        return Ok(String::new(alloc));
    }
    let path = text_of(alloc, &path_at(alloc, bytes, offset)?)?;
    format!(in alloc; "; element {path}")
}

/// Returns the path of the element for which bytes aren't exactly one message of a type, or aren't in DER: by the names
/// of the type if there is a schema of it, as `tbsCertificate.extensions[3].extnID`, else by numbers, as `0.2.1`.
///
/// The path of the outermost element is empty, and so it is for bytes that are a message in DER. The only error is a
/// failed allocation.
pub fn path_of(alloc: Global, named: MessageType, bytes: &[u8]) -> Result<String, AllocError>
    ensures { IfOk result (λ text. IsPathOf named bytes.now (string_bytes text)) }
{
    if let Some(refusal) = refusal_of(alloc, named, bytes)? {
        let reason = reason_of(alloc, bytes, refusal)?;
        return path_for(alloc, named, bytes, refusal.position, reason.offset);
    }
    match complaint_of(alloc, bytes)? {
        Some(complaint) => {
            let offset = complaint.offset;
            path_for(alloc, named, bytes, offset.saturating_add(1), offset)
        }
        None => Ok(String::new(alloc)),
    }
}

// The path by names for this position, or else by numbers for this offset.
fn path_for(
    alloc: Global,
    named: MessageType,
    bytes: &[u8],
    position: usize,
    offset: usize,
) -> Result<String, AllocError>
    ensures { IfOk result (λ text. IsPathAt named bytes.now position offset (string_bytes text)) }
{
    match schema_of(named) {
        Some(schema) => named_path(alloc, schema, bytes, position),
        None => numbered_path(alloc, bytes, offset),
    }
}

// The path by the names of a schema.
fn named_path(
    alloc: Global,
    schema: Schema,
    bytes: &[u8],
    position: usize,
) -> Result<String, AllocError>
    ensures { IfOk result (λ text. IsNamedPath schema bytes.now position (string_bytes text)) }
{
    let path = path_of_error(alloc, schema, bytes, position)?;
    path.names(alloc)
}

// The path by numbers, or nothing of the first byte.
fn numbered_path(alloc: Global, bytes: &[u8], offset: usize) -> Result<String, AllocError>
    ensures { IfOk result (λ text. IsNumberedPath bytes.now offset (string_bytes text)) }
{
    if offset == 0 {
        return Ok(String::new(alloc));
    }
    text_of(alloc, &path_at(alloc, bytes, offset)?)
}
