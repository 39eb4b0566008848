//! Messages from JSON.
ghost use Rattle.std.specs.Prelude.{◌≡◌, true, Some, IfErr, IfOk};
ghost use Rattle.serde_json.specs.Data.{Data};
ghost use Rattle.serde_json.specs.Read.{read};
ghost use Rattle.serde_json.specs.View.{view};
ghost use Rattle.der_json.specs.Json.{IsJson};
ghost use Rattle.der_json.specs.Refusals.{IsRefusal};

use crate::refusal::{FromJsonError, JsonMistake, JsonRefusal};
use crate::same::is_same;
use crate::twice::path_of_twice;
use crate::writer::Writer;
use crate::{JsonError, to_json};
use der_schema::Schema;
use serde_json::Value;
use std::alloc::Global;

/// Returns the bytes of the message of which `to_json` returns this JSON, by the schema of its type.
///
/// It refuses JSON that isn't written of such a message: an object has the members that `to_json` writes, so none with
/// its default, and hexadecimal digits are in upper case. It also refuses what the type doesn't have: numbers, sizes
/// and characters past its constraints, a SET OF that isn't in order, and 0 as the last of bits with names.
pub fn from_json(alloc: Global, schema: Schema, json: &Value) -> Result<Vec<u8>, FromJsonError>
    ensures ok { IfOk result (λ bytes. IsJson schema.nodes.now schema.root true bytes.items (view json.now)) }
    ensures refused { IfErr result (IsRefusal (view json.now)) }
{
    let nodes = schema.nodes;
    let bytes = Writer { alloc, nodes }.value(nodes.len(), schema.root, true, json)?;
    let value = match to_json(alloc, schema, &bytes) {
        Ok(value) => value,
        Err(JsonError::OutOfMemory) => return Err(FromJsonError::OutOfMemory),
        Err(_) => return Err(FromJsonError::of(alloc, JsonMistake::Spelling)),
    };
    if is_same(&value, json) {
        Ok(bytes)
    } else {
        Err(FromJsonError::of(alloc, JsonMistake::Spelling))
    }
}

/// Returns the bytes of the message with this JSON text, as `from_json` does of its value.
///
/// It also refuses a text that isn't JSON, and one in which an object has a member twice.
pub fn from_json_text(alloc: Global, schema: Schema, text: &str) -> Result<Vec<u8>, FromJsonError>
    ensures { IfOk result (λ bytes. (d : Data) × (read text.now ≡ Some d)
        × IsJson schema.nodes.now schema.root true bytes.items d) }
{
    let json = match Value::from_str(alloc, text) {
        Ok(json) => json,
        Err(error) if error.is_memory() => return Err(FromJsonError::OutOfMemory),
        Err(error) => return Err(FromJsonError::Text(error)),
    };
    if let Some(path) = path_of_twice(alloc, text)? {
        let mistake = JsonMistake::Twice;
        return Err(FromJsonError::Refused(JsonRefusal { path, mistake }));
    }
    from_json(alloc, schema, &json)
}
