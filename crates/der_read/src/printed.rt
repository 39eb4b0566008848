//! What is printed of a message. The only error of each function is a failed allocation.
ghost use Rattle.std.specs.Prelude.{◌≡◌, [], ◌∷◌, ◌++◌, false, length, IfOk, string_bytes};
ghost use Rattle.std.specs.Option.{option_copied};
ghost use Rattle.serde_json.specs.View.{view};
ghost use Rattle.serde_json.specs.Written.{has_float};
ghost use Rattle.der_read.specs.Printed.{or_words, words_data, plain_data, valued_data, unvalued_data, offset_data};
ghost use Rattle.der_read.specs.Printed.{refusal_data, refusal_line, refusal_text, IsMessageData, IsMessageLine};
ghost use Rattle.der_read.specs.Printed.{IsReadMessage, IsVerdictLine};

use crate::json::{MessageJson, json_of};
use crate::{MessageType, Verdict, block_value, place_text, verdict_of};
use der_program_base::{Format, Printed, json_line, text_or_bytes};
use serde_json::{Value, json};
use std::alloc::{AllocError, Global};

/// Reads bytes as a message of the type that is asked for, and returns the line on it. Without a type they are read as
/// one of the type that has the label of their block of PEM, and without a label as one of each type.
///
/// The line begins with the file and, for a block of PEM, its number. In JSON it has the message itself (X.697), if
/// there is a schema of its first type.
pub fn read_message(
    alloc: Global,
    format: Format,
    file: &str,
    block: Option<usize>,
    wanted: Option<MessageType>,
    label: Option<&[u8]>,
    bytes: &[u8],
) -> Result<Printed, AllocError>
    ensures { IfOk result (IsReadMessage format file.now block wanted (option_copied label.entry)
        bytes.now) }
{
    let verdict = verdict_of(alloc, wanted, label, bytes)?;
    let line = verdict_line(alloc, format, file, block, bytes, &verdict)?;
    let text = ended(alloc, &line)?;
    let status = verdict.status();
    Ok(Printed { text, status })
}

// The line with the byte that ends it.
pub(crate) fn ended(alloc: Global, line: &str) -> Result<String, AllocError>
    ensures { IfOk result (λ text. string_bytes text ≡ line.now ++ (0x0A ∷ [])) }
{
    format!(in alloc; "{line}\n")
}

// The line on what came of reading these bytes.
fn verdict_line(
    alloc: Global,
    format: Format,
    file: &str,
    block: Option<usize>,
    bytes: &[u8],
    verdict: &Verdict,
) -> Result<String, AllocError>
    ensures { IfOk result (λ line. IsVerdictLine format file.now block bytes.now verdict.now
        (string_bytes line)) }
{
    if let Verdict::Message(types) = verdict {
        return message_line(alloc, format, file, block, bytes, types);
    }
    let text = refusal_text(alloc, verdict)?;
    refusal_line(alloc, format, file, block, offset_value(verdict), &text)
}

// The line of a message.
fn message_line(
    alloc: Global,
    format: Format,
    file: &str,
    block: Option<usize>,
    bytes: &[u8],
    types: &[MessageType],
) -> Result<String, AllocError>
    ensures { IfOk result (λ line. IsMessageLine format file.now block bytes.now types.now
        (string_bytes line)) }
{
    match format {
        Format::Text => {
            let place = place_text(alloc, file, block)?;
            let words = or_words(alloc, types)?;
            let size = bytes.len();
            format!(in alloc; "{place}{words}, {size} bytes")
        }
        Format::Json => {
            let value = message_value(alloc, file, block, bytes, types)?;
            json_line(alloc, &value)
        }
    }
}

// The object of a message. It has the message itself if there is a schema of the first of its types.
fn message_value(
    alloc: Global,
    file: &str,
    block: Option<usize>,
    bytes: &[u8],
    types: &[MessageType],
) -> Result<Value, AllocError>
    ensures { IfOk result (λ value. IsMessageData file.now block bytes.now types.now (view value)) }
{
    let Some(named) = types.first() else {
        return plain_value(alloc, file, block, bytes.len(), types);
    };
    match json_of(alloc, *named, bytes)? {
        MessageJson::Value(json) => valued_value(alloc, file, block, bytes.len(), types, json),
        MessageJson::NoSchema => plain_value(alloc, file, block, bytes.len(), types),
        MessageJson::Refused(refusal) => {
            let reason = format!(in alloc; "{refusal}")?;
            unvalued_value(alloc, file, block, bytes.len(), types, &reason)
        }
    }
}

// The object of a message without the message.
fn plain_value(
    alloc: Global,
    file: &str,
    block: Option<usize>,
    size: usize,
    types: &[MessageType],
) -> Result<Value, AllocError>
    ensures { IfOk result (λ value. view value ≡ plain_data file.now block size types.now) }
{
    let block = block_value(block);
    let types = words_value(alloc, types)?;
    json!(in alloc; {"file": file, "block": block, "types": types, "length": size})
}

// The object of a message with this JSON.
fn valued_value(
    alloc: Global,
    file: &str,
    block: Option<usize>,
    size: usize,
    types: &[MessageType],
    json: Value,
) -> Result<Value, AllocError>
    ensures { IfOk result (λ value. view value
        ≡ valued_data file.now block size types.now (view json)) }
{
    let block = block_value(block);
    let types = words_value(alloc, types)?;
    json!(in alloc; {"file": file, "block": block, "types": types, "length": size, "value": json})
}

// The object of a message that has no JSON for this reason.
fn unvalued_value(
    alloc: Global,
    file: &str,
    block: Option<usize>,
    size: usize,
    types: &[MessageType],
    reason: &str,
) -> Result<Value, AllocError>
    ensures { IfOk result (λ value. view value
        ≡ unvalued_data file.now block size types.now reason.now) }
{
    let block = block_value(block);
    let types = words_value(alloc, types)?;
    json!(in alloc; {
        "file": file,
        "block": block,
        "types": types,
        "length": size,
        "noValue": reason
    })
}

// The line of a refusal with this text, which was found at this offset.
pub(crate) fn refusal_line(
    alloc: Global,
    format: Format,
    file: &str,
    block: Option<usize>,
    offset: Value,
    text: &str,
) -> Result<String, AllocError>
    requires { has_float (view offset) ≡ false }
    ensures { IfOk result (λ line. string_bytes line
        ≡ refusal_line format file.now block (view offset) text.now) }
{
    match format {
        Format::Text => {
            let place = place_text(alloc, file, block)?;
            format!(in alloc; "{place}{text}")
        }
        Format::Json => {
            let value = refusal_value(alloc, file, block, offset, text)?;
            json_line(alloc, &value)
        }
    }
}

// The object of a refusal.
fn refusal_value(
    alloc: Global,
    file: &str,
    block: Option<usize>,
    offset: Value,
    text: &str,
) -> Result<Value, AllocError>
    ensures { IfOk result (λ value. view value
        ≡ refusal_data file.now block (view offset) text.now) }
{
    let block = block_value(block);
    json!(in alloc; {"file": file, "block": block, "refused": text, "offset": offset})
}

// Why bytes are refused.
fn refusal_text(alloc: Global, verdict: &Verdict) -> Result<String, AllocError>
    ensures { IfOk result (λ text. string_bytes text ≡ refusal_text verdict.now) }
{
    match verdict {
        Verdict::Message(_) => Ok(String::new(alloc)),
        Verdict::Other(named, reason) => {
            let word = named.word();
            format!(in alloc; "no {word}: {reason}")
        }
        Verdict::UnknownLabel(label) => {
            let label = text_or_bytes(alloc, label)?;
            format!(in alloc; "no type has the label {label}")
        }
        Verdict::UnknownType => String::from_str(alloc, "no message of a known type"),
        Verdict::NotDer(reason) => format!(in alloc; "{reason}"),
    }
}

// The words of types, with ` or ` between them.
fn or_words(alloc: Global, types: &[MessageType]) -> Result<String, AllocError>
    ensures { IfOk result (λ words. string_bytes words ≡ or_words types.now) }
{
    let Some((first, others)) = types.split_first() else {
        return Ok(String::new(alloc));
    };
    let mut words = String::from_str(alloc, first.word())?;
    for other in others {
        words.push_str(" or ")?;
        words.push_str(other.word())?;
    }
    Ok(words)
}

// Where the bytes are refused, or null.
fn offset_value(verdict: &Verdict) -> Value
    ensures { view result ≡ offset_data verdict.now }
{
    match verdict {
        Verdict::Other(_, reason) | Verdict::NotDer(reason) => Value::from(reason.offset),
        _ => Value::Null,
    }
}

// The array of the words of types.
fn words_value(alloc: Global, types: &[MessageType]) -> Result<Value, AllocError>
    ensures { IfOk result (λ value. view value ≡ words_data types.now) }
{
    let mut words = Vec::new(alloc);
    for named in types {
        words.push(Value::String(String::from_str(alloc, named.word())?))?;
    }
    Ok(Value::Array(words))
}
