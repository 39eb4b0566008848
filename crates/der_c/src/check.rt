//! Bytes that are exactly one message.
ghost use Rattle.der_c.specs.Verdict.{IsFinding, IsVerdict};

use crate::code::{PICKY_DER_NO_MEMORY, PICKY_DER_OK, error_code, rule_code};
use der_read::{Described, MessageType, refusal_of};
use der_show::complaint_of;
use std::alloc::Global;

// Returns the code for whether the bytes are exactly one message of a type, in which each element is in DER, and writes
// where this was found.
pub(crate) fn check(alloc: Global, named: MessageType, bytes: &[u8], position: &mut usize) -> u32
    ensures { IsVerdict (⟦<MessageType as Described>⟧.description named) bytes.now result position.new }
{
    find(alloc, named, bytes, position)
}

// The same, as what was found.
fn find(alloc: Global, named: MessageType, bytes: &[u8], position: &mut usize) -> u32
    ensures { IsFinding (⟦<MessageType as Described>⟧.description named) bytes.now result position.new }
{
    *position = 0;
    let Ok(refusal) = refusal_of(alloc, named, bytes) else {
        return PICKY_DER_NO_MEMORY;
    };
    if let Some(refusal) = refusal {
        *position = refusal.position;
        return error_code(refusal.error);
    }
    let Ok(complaint) = complaint_of(alloc, bytes) else {
        return PICKY_DER_NO_MEMORY;
    };
    match complaint {
        Some(complaint) => {
            *position = complaint.offset;
            rule_code(complaint.rule)
        }
        None => {
            *position = bytes.len();
            PICKY_DER_OK
        }
    }
}
