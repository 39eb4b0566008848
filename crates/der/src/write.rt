//! What `write` writes: the DER of a message, from its JSON.
ghost use Rattle.std.specs.Prelude.{IfOk, MatchOption, map};
ghost use Rattle.der.specs.Write.{IsNoWriteRequest, IsWriteRequest, IsWritten};

use der_read::{FromJson, MessageType, message_from_json, type_of_word};
use picky_asn1_der::Result;
use picky_asn1_der::misc::WriteExt;
use std::alloc::Global;

/// What `write` is asked for.
#[derive(Debug, Clone, Copy)]
pub struct WriteRequest<'a> {
    /// The type of the message.
    pub named: MessageType,
    /// The file of JSON or BER, or `-` for standard input.
    pub file: &'a str,
}

/// What came of writing a message.
#[derive(Debug, Drop)]
pub enum Written {
    /// Its DER was written.
    Message,
    /// Nothing was written: there is no table of the type, and so neither JSON nor the DER of its BER.
    NoSchema,
    /// Nothing was written: it isn't the JSON or the BER of a message of the type, for this reason.
    Refused(String),
}

/// Returns what these words ask for: the first is that of a type, and the second a file. Without a file it is standard
/// input. Returns `None` if they are neither one nor two words, or no type has the first.
pub fn write_request<'a>(words: &[&'a str]) -> Option<WriteRequest<'a>>
    ensures { MatchOption result (IsNoWriteRequest (map (λ word. word.now) words.now))
        (IsWriteRequest (map (λ word. word.now) words.now)) }
{
    match words {
        [word] => {
            let named = type_of_word(*word)?;
            Some(WriteRequest { named, file: "-" })
        }
        [word, file] => {
            let named = type_of_word(*word)?;
            Some(WriteRequest { named, file: *file })
        }
        _ => None,
    }
}

/// Writes the DER of the message of a type that has this JSON. The error is that of the output, or `OutOfMemory` if an
/// allocation failed.
pub fn write_message<W: WriteExt>(
    alloc: Global,
    named: MessageType,
    json: &[u8],
    output: &mut W,
) -> Result<Written>
    ensures { IfOk result (IsWritten named json.now (W.written output.old) (W.written output.new)) }
{
    match message_from_json(alloc, named, json)? {
        FromJson::Message(bytes) => {
            output.write_exact(&bytes)?;
            Ok(Written::Message)
        }
        FromJson::NoSchema => Ok(Written::NoSchema),
        FromJson::Refused(reason) => Ok(Written::Refused(reason)),
    }
}
