//! The DER of bytes in BER (X.690, 8), by the tables of the types of messages.
ghost use Rattle.std.specs.Prelude.{IfOk, IfErr};
ghost use Rattle.der_ber_types.specs.Errors.{IsRefusedByType};
ghost use Rattle.der_read.specs.BerMessages.{IsBerOf, IsInDer};
ghost use Rattle.der_read.specs.Paths.{IsSchemaOf};

use crate::MessageType;
use crate::content_types::content_types;
use crate::schema::schema_of;
use der_ber_types::{ToDerError, message_to_der, to_der};
use der_schema::Schema;
use std::alloc::{AllocError, Global};

// What comes of bytes that are read as BER of a message.
#[derive(Debug, Drop)]
pub(crate) enum InDer {
    // Its DER.
    Message(Vec<u8>),
    // There is no table of the type, and so no DER of its BER.
    NoSchema,
    // They aren't BER of a value of the type. The error isn't `OutOfMemory`.
    Refused(ToDerError),
}

// The DER of a message of a type in BER, by the table of the type. The content of a message of CMS is in DER by its own
// type, if that has a table. The only error is a failed allocation.
pub(crate) fn in_der(alloc: Global, named: MessageType, bytes: &[u8]) -> Result<InDer, AllocError>
    ensures { IfOk result (IsInDer named bytes.now) }
{
    let Some(schema) = schema_of(named) else {
        return Ok(InDer::NoSchema);
    };
    match by_table(alloc, named, schema, bytes) {
        Ok(der) => Ok(InDer::Message(der)),
        Err(ToDerError::OutOfMemory) => Err(AllocError),
        Err(refusal) => Ok(InDer::Refused(refusal)),
    }
}

// The same by this table of the type.
fn by_table(
    alloc: Global,
    named: MessageType,
    schema: Schema,
    bytes: &[u8],
) -> Result<Vec<u8>, ToDerError>
    requires { IsSchemaOf named schema }
    ensures ok { IfOk result (λ der. IsBerOf named bytes.now der.items) }
    ensures err { IfErr result (IsRefusedByType bytes.now) }
{
    match named {
        MessageType::Cms => message_to_der(alloc, &content_types(), bytes),
        _ => to_der(alloc, schema, bytes),
    }
}
