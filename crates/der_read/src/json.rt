//! Messages in JSON (X.697), by the schemas of their types. The only error of each function is a failed allocation.
ghost use Rattle.std.specs.Prelude.{IfOk};
ghost use Rattle.der_read.specs.JsonMessages.{IsMessageJson};

use crate::MessageType;
use crate::schema::schema_of;
use der_json::{JsonError, to_json};
use serde_json::Value;
use std::alloc::{AllocError, Global};

/// What comes of turning a message into JSON.
#[derive(Debug, Drop)]
pub enum MessageJson {
    /// Its JSON.
    Value(Value),
    /// There is no schema of its type, and so no JSON.
    NoSchema,
    /// It has no JSON, for this reason, which isn't `OutOfMemory`.
    Refused(JsonError),
}

/// Returns the JSON of bytes that are a message of a type, by the schema of the type.
pub fn json_of(alloc: Global, named: MessageType, bytes: &[u8]) -> Result<MessageJson, AllocError>
    ensures { IfOk result (IsMessageJson named bytes.now) }
{
    let Some(schema) = schema_of(named) else {
        return Ok(MessageJson::NoSchema);
    };
    match to_json(alloc, schema, bytes) {
        Ok(value) => Ok(MessageJson::Value(value)),
        Err(JsonError::OutOfMemory) => Err(AllocError),
        Err(refusal) => Ok(MessageJson::Refused(refusal)),
    }
}
