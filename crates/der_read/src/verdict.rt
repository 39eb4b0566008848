//! What comes of reading bytes as a message. The only error of each function is a failed allocation.
ghost use Rattle.std.specs.Prelude.{◌≡◌, IfOk};
ghost use Rattle.std.specs.Option.{option_copied};
ghost use Rattle.der_read.specs.Verdict.{IsOfType, IsLabelled, IsOfAny, IsVerdict, status_of};

use crate::explanation::{Explanation, complaint_explanation, explanation_of};
use crate::{MessageType, refusal_of, type_of_label, types_of};
use der_program_base::Status;
use der_show::outline_of;
use std::alloc::{AllocError, Global};

/// What comes of reading bytes as a message.
#[derive(Debug, Drop)]
pub enum Verdict {
    /// They are exactly one message of each of these types, of which there is at least one.
    Message(Vec<MessageType>),
    /// They aren't a message of this type, which was asked for or has the label.
    Other(MessageType, Explanation),
    /// No type was asked for, and none has this label.
    UnknownLabel(Vec<u8>),
    /// No type was asked for, and there is no label. The bytes are DER, and a message of no type.
    UnknownType,
    /// No type was asked for, and there is no label. The bytes aren't DER.
    NotDer(Explanation),
}

impl Verdict {
    /// Returns `Fine` if the bytes are a message, and else `Refused`.
    pub fn status(&self) -> Status
        ensures { result ≡ status_of self.now }
    {
        match self {
            Verdict::Message(_) => Status::Fine,
            _ => Status::Refused,
        }
    }
}

/// Reads bytes as a message of the type that is asked for. Without it they are read as one of the type that has the
/// label of their block of PEM, and without a label as one of each type.
pub fn verdict_of(
    alloc: Global,
    wanted: Option<MessageType>,
    label: Option<&[u8]>,
    bytes: &[u8],
) -> Result<Verdict, AllocError>
    ensures { IfOk result (IsVerdict wanted (option_copied label.entry) bytes.now) }
{
    match (wanted, label) {
        (Some(named), _) => of_type(alloc, named, bytes),
        (None, Some(label)) => of_label(alloc, label, bytes),
        (None, None) => of_any(alloc, bytes),
    }
}

fn of_type(alloc: Global, named: MessageType, bytes: &[u8]) -> Result<Verdict, AllocError>
    ensures { IfOk result (IsOfType named bytes.now) }
{
    match refusal_of(alloc, named, bytes)? {
        None => Ok(Verdict::Message(vec![in alloc; named]?)),
        Some(refusal) => {
            let reason = explanation_of(alloc, named, bytes, refusal)?;
            Ok(Verdict::Other(named, reason))
        }
    }
}

fn of_label(alloc: Global, label: &[u8], bytes: &[u8]) -> Result<Verdict, AllocError>
    ensures { IfOk result (IsLabelled label.now bytes.now) }
{
    match type_of_label(label) {
        Some(named) => of_type(alloc, named, bytes),
        None => Ok(Verdict::UnknownLabel(label.to_vec(alloc)?)),
    }
}

fn of_any(alloc: Global, bytes: &[u8]) -> Result<Verdict, AllocError>
    ensures { IfOk result (IsOfAny bytes.now) }
{
    let types = types_of(alloc, bytes)?;
    if !types.is_empty() {
        return Ok(Verdict::Message(types));
    }
    match outline_of(alloc, bytes)?.complaint {
        None => Ok(Verdict::UnknownType),
        Some(complaint) => Ok(Verdict::NotDer(complaint_explanation(alloc, complaint)?)),
    }
}
