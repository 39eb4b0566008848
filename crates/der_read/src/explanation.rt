//! Why bytes are refused, in the words of `der_show`. The only error of each function is a failed allocation.
ghost use Rattle.std.specs.Prelude.{◌≡◌, Some, IfOk, string_bytes};
ghost use Rattle.der_read.specs.Explanation.{IsComplaintExplanation, IsExplanationOf};

use crate::MessageType;
use crate::path::path_text;
use der_show::{Cause, Complaint, Reason, reason_of};
use picky_asn1_der::DecodeError;
use std::alloc::{AllocError, Global};
use std::fmt;

// Why no bytes are refused.
const NO_ELEMENT: &str = "refused at 0: no element (X.690, 8.1.1)";

/// Why bytes are refused, and where. It prints as its text.
#[derive(Debug, Drop)]
pub struct Explanation {
    /// The offset of the element at which it was found.
    pub offset: usize,
    /// The place and the reason in words, as `refused at 402: another element or value than the type has`. After it
    /// comes the path of the element, as `; tbsCertificate.signature.algorithm: expected OBJECT IDENTIFIER, found SET`.
    pub text: String,
}

impl fmt::Display for Explanation {
    ghost output = { λ it. Some (string_bytes it.text) };

    fn fmt<W: fmt::Write>(&self, f: &mut fmt::Formatter<W>) -> fmt::Result {
        f.write_str(&self.text)
    }
}

// Why bytes are refused as a message of a type.
pub(crate) fn explanation_of(
    alloc: Global,
    named: MessageType,
    bytes: &[u8],
    refusal: DecodeError,
) -> Result<Explanation, AllocError>
    ensures { IfOk result (IsExplanationOf bytes.now refusal) }
{
    let reason = reason_of(alloc, bytes, refusal)?;
    if bytes.is_empty() {
        let text = String::from_str(alloc, NO_ELEMENT)?;
        return Ok(Explanation {
            offset: reason.offset,
            text,
        });
    }
    let path = path_text(alloc, named, bytes, refusal.position, &reason)?;
    explained(alloc, reason, &path)
}

// Why bytes aren't DER.
pub(crate) fn complaint_explanation(
    alloc: Global,
    complaint: Complaint,
) -> Result<Explanation, AllocError>
    ensures { IfOk result (IsComplaintExplanation complaint) }
{
    let reason = Reason {
        offset: complaint.offset,
        cause: Cause::NotDer(complaint.rule),
    };
    explained(alloc, reason, "")
}

// The explanation by a reason, with this text after it.
fn explained(alloc: Global, reason: Reason, path: &str) -> Result<Explanation, AllocError>
    ensures { IfOk result (λ it. it.offset ≡ reason.offset) }
{
    let offset = reason.offset;
    let text = format!(in alloc; "{reason}{path}")?;
    Ok(Explanation { offset, text })
}
