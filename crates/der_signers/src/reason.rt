//! Why bytes are refused.
ghost use Rattle.std.specs.Prelude.{IfOk};
ghost use Rattle.der_signers.specs.Reason.{IsReason, IsReasonAt, IsReasonWithout};

use crate::outcome::Refusal;
use der_cms::ContentType;
use der_program_base::Line;
use der_read::path_by_numbers;
use der_show::push_object_identifier;
use picky_asn1_der::DecodeError;
use std::alloc::{AllocError, Global};

/// Why bytes are refused.
#[derive(Debug, Drop)]
pub struct Reason {
    /// The offset in the whole message of the element at which it was found, or `None` if it isn't at one.
    pub offset: Option<usize>,
    /// What was found, on one line.
    pub text: String,
}

/// Returns why bytes are refused: the rule of DER that they break first, or what the type has another element for. The
/// only error is a failed allocation.
pub fn reason_of(alloc: Global, bytes: &[u8], refusal: &Refusal) -> Result<Reason, AllocError>
    ensures { IfOk result (IsReason bytes.now refusal.now) }
{
    match refusal {
        Refusal::NoContentInfo(error) => reason_at(alloc, "no ContentInfo", bytes, *error),
        Refusal::NoSignedData(error) => reason_at(alloc, "no SignedData", bytes, *error),
        Refusal::OtherContent(kind) => other_content(alloc, kind),
    }
}

// Why bytes with this error are no such thing.
fn reason_at(
    alloc: Global,
    thing: &str,
    bytes: &[u8],
    error: DecodeError,
) -> Result<Reason, AllocError>
    ensures { IfOk result (IsReasonAt bytes.now error) }
{
    let found = der_show::reason_of(alloc, bytes, error)?;
    let path = path_by_numbers(alloc, bytes, found.offset)?;
    let mut line = Line::new(alloc);
    write!(line, "{thing}: {found}{path}")?;
    let text = line.into_string();
    Ok(Reason {
        offset: Some(found.offset),
        text,
    })
}

// That the content has this type.
fn other_content(alloc: Global, kind: &ContentType) -> Result<Reason, AllocError>
    ensures { IfOk result IsReasonWithout }
{
    let mut line = Line::new(alloc);
    line.push_str("no signed data: the content type is ")?;
    push_object_identifier(&mut line, kind)?;
    let text = line.into_string();
    Ok(Reason { offset: None, text })
}
