//! What is printed of a message in BER. The only error of each function is a failed allocation.
ghost use Rattle.std.specs.Prelude.{◌≡◌, ◌↔◌, false, length, IfOk, IsTrue, string_bytes};
ghost use Rattle.serde_json.specs.View.{view};
ghost use Rattle.serde_json.specs.Written.{has_float};
ghost use Rattle.der_read.specs.BerMessages.{IsBerOf};
ghost use Rattle.der_read.specs.BerPrinted.{ber_data, ber_line, ber_text, no_der_text, no_table_text};
ghost use Rattle.der_read.specs.BerPrinted.{IsBerLine, IsReadBer, IsRefusalOfBer};

use crate::ber_words::{refusal_offset, refusal_text};
use crate::in_der::{InDer, in_der};
use crate::printed::{ended, refusal_line};
use crate::{MessageType, block_value, place_text};
use der_ber_types::ToDerError;
use der_program_base::{Format, Printed, Status, json_line};
use serde_json::{Value, json};
use std::alloc::{AllocError, Global};

/// What is printed of bytes that are to be a message in BER.
#[derive(Debug, Drop)]
pub enum BerPrinted {
    /// They are BER. What is printed of the message follows the line on them.
    Message {
        /// The line, with the byte 0A at its end.
        line: String,
        /// The DER of the message.
        der: Vec<u8>,
    },
    /// They aren't, or there is no table of the type. This line says why.
    Refused(Printed),
}

/// Reads bytes as BER of a message of a type, by the table of the type, and returns the line on them and their DER. The
/// line is `FILE: BER, 1045 bytes; its DER has 1020 bytes`, or `FILE: DER, 1020 bytes` if they are in DER. It begins
/// with the file and, for a block of PEM, its number.
///
/// Contents are looked at as far as BER needs it, so `read_message` can refuse the DER.
pub fn read_ber(
    alloc: Global,
    format: Format,
    file: &str,
    block: Option<usize>,
    named: MessageType,
    bytes: &[u8],
) -> Result<BerPrinted, AllocError>
    ensures { IfOk result (IsReadBer format file.now block named bytes.now) }
{
    match in_der(alloc, named, bytes)? {
        InDer::Message(der) => message_in_ber(alloc, format, file, block, named, bytes, der),
        InDer::NoSchema => {
            let text = no_table_text(alloc, named)?;
            let printed = refused(alloc, format, file, block, Value::Null, &text)?;
            Ok(BerPrinted::Refused(printed))
        }
        InDer::Refused(error) => {
            let text = no_der_text(alloc, named, error)?;
            let printed = refused(alloc, format, file, block, refusal_offset(error), &text)?;
            Ok(BerPrinted::Refused(printed))
        }
    }
}

// The line on bytes in BER, and their DER.
fn message_in_ber(
    alloc: Global,
    format: Format,
    file: &str,
    block: Option<usize>,
    named: MessageType,
    bytes: &[u8],
    der: Vec<u8>,
) -> Result<BerPrinted, AllocError>
    requires { IsBerOf named bytes.now der.items }
    ensures { IfOk result (IsReadBer format file.now block named bytes.now) }
{
    let line = line_of(alloc, format, file, block, bytes, &der)?;
    let line = ended(alloc, &line)?;
    Ok(BerPrinted::Message { line, der })
}

// The line on bytes with this DER.
fn line_of(
    alloc: Global,
    format: Format,
    file: &str,
    block: Option<usize>,
    bytes: &[u8],
    der: &[u8],
) -> Result<String, AllocError>
    ensures { IfOk result (λ line. IsBerLine format file.now block bytes.now der.now (string_bytes line)) }
{
    let is_der = der == bytes;
    ber_line(alloc, format, file, block, bytes.len(), der.len(), is_der)
}

// The line on so many bytes, whose DER has so many, and is the same bytes or not.
fn ber_line(
    alloc: Global,
    format: Format,
    file: &str,
    block: Option<usize>,
    size: usize,
    der_size: usize,
    is_der: bool,
) -> Result<String, AllocError>
    ensures { IfOk result (λ line. string_bytes line
        ≡ ber_line format file.now block size der_size is_der) }
{
    match format {
        Format::Text => {
            let place = place_text(alloc, file, block)?;
            let text = ber_text(alloc, size, der_size, is_der)?;
            format!(in alloc; "{place}{text}")
        }
        Format::Json => {
            let value = ber_value(alloc, file, block, size, der_size, is_der)?;
            json_line(alloc, &value)
        }
    }
}

// The same in words.
fn ber_text(alloc: Global, size: usize, der_size: usize, is_der: bool) -> Result<String, AllocError>
    ensures { IfOk result (λ text. string_bytes text ≡ ber_text size der_size is_der) }
{
    if is_der {
        format!(in alloc; "DER, {size} bytes")
    } else {
        format!(in alloc; "BER, {size} bytes; its DER has {der_size} bytes")
    }
}

// The same in an object.
fn ber_value(
    alloc: Global,
    file: &str,
    block: Option<usize>,
    size: usize,
    der_size: usize,
    is_der: bool,
) -> Result<Value, AllocError>
    ensures { IfOk result (λ value. view value ≡ ber_data file.now block size der_size is_der) }
{
    let block = block_value(block);
    json!(in alloc; {
        "file": file,
        "block": block,
        "berLength": size,
        "derLength": der_size,
        "isDer": is_der
    })
}

// The line of a refusal with this text, which was found at this offset.
fn refused(
    alloc: Global,
    format: Format,
    file: &str,
    block: Option<usize>,
    offset: Value,
    text: &str,
) -> Result<Printed, AllocError>
    requires { has_float (view offset) ≡ false }
    ensures { IfOk result (IsRefusalOfBer format file.now block (view offset) text.now) }
{
    let line = refusal_line(alloc, format, file, block, offset, text)?;
    let text = ended(alloc, &line)?;
    Ok(Printed {
        text,
        status: Status::Refused,
    })
}

// Why there is no DER of BER of a type without a table.
fn no_table_text(alloc: Global, named: MessageType) -> Result<String, AllocError>
    ensures { IfOk result (λ text. string_bytes text ≡ no_table_text named) }
{
    let word = named.word();
    format!(in alloc; "there is no table of {word}, and so no DER of its BER")
}

// Why bytes aren't BER of a value of a type.
fn no_der_text(alloc: Global, named: MessageType, error: ToDerError) -> Result<String, AllocError>
    ensures { IfOk result (λ text. string_bytes text ≡ no_der_text named error) }
{
    let word = named.word();
    let text = refusal_text(alloc, error)?;
    format!(in alloc; "no {word}: {text}")
}
