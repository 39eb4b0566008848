//! What comes of reading bytes as a message.
ghost use Rattle.std.specs.Prelude.{◌≡◌, ◌≢◌, IfOk, IfErr};
ghost use Rattle.std.specs.List.{list_any};
ghost use Rattle.der_signers.specs.Outcome.{IsContentInfo, IsOutcome};
ghost use Rattle.der_signers.specs.Statuses.{status_of, message_status, something_differs, differs, was_compared};
ghost use Rattle.der_signers.specs.Statuses.{content_differs};

use crate::comparison::{ContentComparison, DigestComparison, RequiredAttributes, TypeComparison};
use crate::message::{Message, read_message};
use crate::report::Report;
use crate::request::Request;
use der_cms::{ContentInfo, ContentType, SignedData, values};
use der_program_base::Status;
use picky_asn1_der::{Asn1DerError, DecodeError, Result, from_der};
use std::alloc::Global;

/// Why bytes are no message with signed data. Positions count from the front of the message.
#[derive(Debug, Drop)]
pub enum Refusal {
    /// They aren't a `ContentInfo`.
    NoContentInfo(DecodeError),
    /// The content has this type, and not that of signed data.
    OtherContent(ContentType),
    /// The content isn't a `SignedData`.
    NoSignedData(DecodeError),
}

/// What comes of reading bytes as a message.
#[derive(Debug, Drop)]
pub enum Outcome {
    /// They are a message with signed data.
    Read(Message),
    /// They aren't.
    Refused(Refusal),
}

impl Outcome {
    /// Returns `Refused` if the message was refused or something differs, else `Fine` if the digest of a signer's
    /// content was compared, else `NothingCompared`.
    pub fn status(&self) -> Status
        ensures { result ≡ status_of self.now }
    {
        match self {
            Outcome::Read(message) => message_status(message),
            Outcome::Refused(_) => Status::Refused,
        }
    }
}

// The status for a message that was read.
fn message_status(message: &Message) -> Status
    ensures { result ≡ message_status message.now }
{
    if something_differs(message) {
        Status::Refused
    } else if something_was_compared(message) {
        Status::Fine
    } else {
        Status::NothingCompared
    }
}

// Whether something of a message differs from what it must be.
fn something_differs(message: &Message) -> bool
    ensures { result ≡ something_differs message.now }
{
    let in_content = content_differs(message.content);
    let in_signers = some_signer_differs(message);
    in_content || in_signers
}

// Whether something of a signer differs.
fn some_signer_differs(message: &Message) -> bool
    ensures { result ≡ list_any differs message.now.reports.items }
{
    message.reports.iter().any(differs)
}

// Whether the digest of some signer's content was compared, and is the same.
fn something_was_compared(message: &Message) -> bool
    ensures { result ≡ list_any was_compared message.now.reports.items }
{
    message.reports.iter().any(was_compared)
}

// Whether a message's own content isn't the one that was given.
fn content_differs(content: Option<ContentComparison>) -> bool
    ensures { result ≡ content_differs content }
{
    matches!(content, Some(ContentComparison::Different))
}

// Whether something of a signer differs from what it must be.
fn differs(report: &Report) -> bool
    ensures { result ≡ differs report.now }
{
    matches!(
        report.message_digest,
        DigestComparison::OtherLineEnds | DigestComparison::Different
    ) || matches!(report.content_type, TypeComparison::Different)
        || matches!(
            report.attributes,
            RequiredAttributes::Incomplete | RequiredAttributes::Missing
        )
        || !report.is_listed
}

// Whether the digest of a signer's content was compared, and is the same.
fn was_compared(report: &Report) -> bool
    ensures { result ≡ was_compared report.now }
{
    matches!(report.message_digest, DigestComparison::Same)
}

/// Reads bytes as a message with signed data, and reports on each signer. The only error is `OutOfMemory`.
///
/// Bytes that aren't DER are refused, and so is a message whose signed attributes are out of order (X.690, 11.6).
pub fn examine(alloc: Global, bytes: &[u8], request: &Request) -> Result<Outcome>
    ensures ok { IfOk result (IsOutcome bytes.now request.now) }
    ensures err { IfErr result (λ e. e ≡ Asn1DerError.OutOfMemory) }
{
    match from_der::<ContentInfo>(alloc, bytes) {
        Ok(message) => examine_content(alloc, bytes, message, request),
        Err(refusal) => {
            let refusal = reported(refusal)?;
            Ok(Outcome::Refused(Refusal::NoContentInfo(refusal)))
        }
    }
}

// The outcome for the bytes of this message.
fn examine_content(
    alloc: Global,
    bytes: &[u8],
    message: ContentInfo,
    request: &Request,
) -> Result<Outcome>
    requires { IsContentInfo bytes.now message }
    ensures ok { IfOk result (IsOutcome bytes.now request.now) }
    ensures err { IfErr result (λ e. e ≡ Asn1DerError.OutOfMemory) }
{
    let ContentInfo {
        content_type,
        content,
    } = message;
    if !content_type.is(values::ID_SIGNED_DATA) {
        return Ok(Outcome::Refused(Refusal::OtherContent(content_type)));
    }
    let encoding = content.0.as_bytes();
    match from_der::<SignedData>(alloc, encoding) {
        Ok(signed_data) => {
            let message = read_message(alloc, encoding, &signed_data, request)?;
            Ok(Outcome::Read(message))
        }
        Err(refusal) => {
            let DecodeError { error, position } = reported(refusal)?;
            let position = bytes.len().saturating_sub(encoding.len()) + position;
            let refusal = DecodeError { error, position };
            Ok(Outcome::Refused(Refusal::NoSignedData(refusal)))
        }
    }
}

// The error of the decoding, unless it is that an allocation failed.
fn reported(refusal: DecodeError) -> Result<DecodeError>
    ensures ok { IfOk result (λ r. (r ≡ refusal) × (r.error ≢ Asn1DerError.OutOfMemory)) }
    ensures err { IfErr result (λ e. e ≡ Asn1DerError.OutOfMemory) }
{
    match refusal.error {
        Asn1DerError::OutOfMemory => Err(Asn1DerError::OutOfMemory),
        _ => Ok(refusal),
    }
}
