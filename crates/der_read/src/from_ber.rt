//! Messages from BER (X.690, 8), by the tables of their types. The only error of each function is a failed allocation.
ghost use Rattle.std.specs.Prelude.{IfOk};
ghost use Rattle.der_read.specs.BerMessages.{IsBerOf, IsFromBer};

use crate::MessageType;
use crate::ber_words::refusal_text;
use crate::fault::fault_of;
use crate::in_der::{InDer, in_der};
use std::alloc::{AllocError, Global};

/// What comes of bytes that are to be a message in BER.
#[derive(Debug, Drop)]
pub enum FromBer {
    /// They are BER of a message, of which this is the DER.
    Message(Vec<u8>),
    /// There is no table of the type, and so no DER of its BER.
    NoSchema,
    /// They aren't BER of a message of the type, for this reason.
    Refused(String),
}

/// Returns the DER of a message of a type in BER, by the table of the type: lengths of any form, strings in parts, any
/// TRUE, sets in any order, and defaults that are written out (X.690, 8, 10 and 11). The content of a message of CMS is
/// read by its own type, if that has a table.
///
/// What is returned is a message of the type, and each element in it is in DER. The reason of a refusal has the offset
/// of the element in the bytes, or in their DER, and says in which.
pub fn message_from_ber(
    alloc: Global,
    named: MessageType,
    bytes: &[u8],
) -> Result<FromBer, AllocError>
    ensures { IfOk result (IsFromBer named bytes.now) }
{
    match in_der(alloc, named, bytes)? {
        InDer::Message(der) => accepted(alloc, named, bytes, der),
        InDer::NoSchema => Ok(FromBer::NoSchema),
        InDer::Refused(error) => Ok(FromBer::Refused(refusal_text(alloc, error)?)),
    }
}

// The DER of these bytes, if it is a message of the type in DER throughout.
fn accepted(
    alloc: Global,
    named: MessageType,
    bytes: &[u8],
    der: Vec<u8>,
) -> Result<FromBer, AllocError>
    requires { IsBerOf named bytes.now der.items }
    ensures { IfOk result (IsFromBer named bytes.now) }
{
    match fault_of(alloc, named, &der)? {
        Some(reason) => Ok(FromBer::Refused(format!(in alloc; "its DER: {reason}")?)),
        None => Ok(FromBer::Message(der)),
    }
}
