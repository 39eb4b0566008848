//! Why bytes aren't a message of a type in DER throughout.
ghost use Rattle.std.specs.Prelude.{IfOk, IfNone};
ghost use Rattle.der_show.specs.Outlines.{AreElements};
ghost use Rattle.der_read.specs.Fitting.{IsMessage};

use crate::explanation::{complaint_explanation, explanation_of};
use crate::{Explanation, MessageType, refusal_of};
use der_show::complaint_of;
use std::alloc::{AllocError, Global};

// Why they aren't, or `None` if they are. The only error is a failed allocation.
pub(crate) fn fault_of(
    alloc: Global,
    named: MessageType,
    bytes: &[u8],
) -> Result<Option<Explanation>, AllocError>
    ensures message { IfOk result (λ fault. IfNone fault (IsMessage named bytes.now)) }
    ensures in_der { IfOk result (λ fault. IfNone fault (AreElements bytes.now)) }
{
    if let Some(refusal) = refusal_of(alloc, named, bytes)? {
        return Ok(Some(explanation_of(alloc, named, bytes, refusal)?));
    }
    match complaint_of(alloc, bytes)? {
        Some(complaint) => Ok(Some(complaint_explanation(alloc, complaint)?)),
        None => Ok(None),
    }
}
