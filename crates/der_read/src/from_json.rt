//! Messages from JSON (X.697), by the schemas of their types. The only error of each function is a failed allocation.
ghost use Rattle.std.specs.Prelude.{IfOk};
ghost use Rattle.der_read.specs.JsonMessages.{IsAccepted, IsFromJson};

use crate::MessageType;
use crate::fault::fault_of;
use crate::schema::schema_of;
use der_json::{FromJsonError, from_json_text};
use std::alloc::{AllocError, Global};

// Why bytes aren't JSON (RFC 8259, 8.1).
const NO_TEXT: &str = "the text isn't UTF-8";

/// What comes of a text of JSON.
#[derive(Debug, Drop)]
pub enum FromJson {
    /// It is the JSON of a message, of which this is the DER.
    Message(Vec<u8>),
    /// There is no schema of the type, and so no JSON.
    NoSchema,
    /// It isn't the JSON of a message of the type, for this reason.
    Refused(String),
}

/// Returns the DER of the message of a type that has this JSON, by the schema of the type. It is a message of the type,
/// and each element in it is in DER.
pub fn message_from_json(
    alloc: Global,
    named: MessageType,
    json: &[u8],
) -> Result<FromJson, AllocError>
    ensures { IfOk result (IsFromJson named json.now) }
{
    let Some(schema) = schema_of(named) else {
        return Ok(FromJson::NoSchema);
    };
    let Ok(text) = str::from_utf8(json) else {
        return Ok(FromJson::Refused(String::from_str(alloc, NO_TEXT)?));
    };
    match from_json_text(alloc, schema, text) {
        Ok(bytes) => accepted(alloc, named, bytes),
        Err(FromJsonError::OutOfMemory) => Err(AllocError),
        Err(refusal) => Ok(FromJson::Refused(format!(in alloc; "{refusal}")?)),
    }
}

// The bytes, if they are a message of the type in DER throughout.
fn accepted(alloc: Global, named: MessageType, bytes: Vec<u8>) -> Result<FromJson, AllocError>
    ensures { IfOk result (IsAccepted named bytes.items) }
{
    match fault_of(alloc, named, &bytes)? {
        Some(reason) => Ok(FromJson::Refused(reason.text)),
        None => Ok(FromJson::Message(bytes)),
    }
}
