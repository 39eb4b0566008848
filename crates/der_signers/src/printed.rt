//! What is printed of a message.
ghost use Rattle.std.specs.Prelude.{◌≡◌, IfOk, IfErr, string_bytes};
ghost use Rattle.der_signers.specs.Printed.{message_text, signers_text, no_signers_text, refusal_text, signer_text};
ghost use Rattle.der_signers.specs.Printed.{IsRefusedText, IsText, IsPrinted};

use crate::comparison::ContentComparison;
use crate::json::{no_signers_object, refusal_object, signer_object};
use crate::message::Message;
use crate::outcome::{Outcome, Refusal, examine};
use crate::reason::{Reason, reason_of};
use crate::report::Report;
use crate::request::Request;
use crate::text::{no_signers_line, refusal_line, signer_line};
use der_program_base::{Format, Printed};
use picky_asn1_der::{Asn1DerError, Result};
use std::alloc::{AllocError, Global};
use std::result;

/// Returns what is printed of the message in these bytes, which are those of a file or of a block in it: a line for
/// each signer, or one that says that there is none, or one that says why the bytes are refused. The only error is
/// `OutOfMemory`.
///
/// The status is `Refused` if the bytes are refused or something differs: the given content, a `messageDigest`, a
/// `contentType`, an attribute that must be there, or a digest algorithm that the message doesn't list. Else it is
/// `Fine` if a `messageDigest` was compared, and `NothingCompared` if none was. No signature is verified.
pub fn signers_report(
    alloc: Global,
    file: &str,
    block: Option<usize>,
    bytes: &[u8],
    request: &Request,
    format: Format,
) -> Result<Printed>
    ensures ok { IfOk result (IsPrinted file.now block bytes.now request.now format) }
    ensures err { IfErr result (λ e. e ≡ Asn1DerError.OutOfMemory) }
{
    let outcome = examine(alloc, bytes, request)?;
    let text = outcome_text(alloc, file, block, bytes, &outcome, format)?;
    let status = outcome.status();
    Ok(Printed { text, status })
}

// The lines for what came of reading these bytes.
fn outcome_text(
    alloc: Global,
    file: &str,
    block: Option<usize>,
    bytes: &[u8],
    outcome: &Outcome,
    format: Format,
) -> result::Result<String, AllocError>
    ensures { IfOk result (λ text. IsText format file.now block bytes.now outcome.now
        (string_bytes text)) }
{
    match outcome {
        Outcome::Read(message) => message_text(alloc, file, block, message, format),
        Outcome::Refused(refusal) => refused_text(alloc, file, block, bytes, refusal, format),
    }
}

// The line of bytes that are refused.
fn refused_text(
    alloc: Global,
    file: &str,
    block: Option<usize>,
    bytes: &[u8],
    refusal: &Refusal,
    format: Format,
) -> result::Result<String, AllocError>
    ensures { IfOk result (λ text. IsRefusedText format file.now block bytes.now refusal.now
        (string_bytes text)) }
{
    let reason = reason_of(alloc, bytes, refusal)?;
    refusal_text(alloc, file, block, &reason, format)
}

// The lines of a message that was read.
fn message_text(
    alloc: Global,
    file: &str,
    block: Option<usize>,
    message: &Message,
    format: Format,
) -> result::Result<String, AllocError>
    ensures { IfOk result (λ text. string_bytes text
        ≡ message_text format file.now block message.now) }
{
    if message.reports.is_empty() {
        no_signers_text(alloc, file, block, message, format)
    } else {
        signers_text(alloc, file, block, message, format)
    }
}

// The lines of the signers.
fn signers_text(
    alloc: Global,
    file: &str,
    block: Option<usize>,
    message: &Message,
    format: Format,
) -> result::Result<String, AllocError>
    ensures { IfOk result (λ text. string_bytes text
        ≡ signers_text format file.now block message.now) }
{
    let mut text = String::new(alloc);
    for (index, report) in message.reports.iter().enumerate() {
        let line = signer_text(alloc, file, block, message.content, index, report, format)?;
        text.push_str(&line)?;
    }
    Ok(text)
}

// The line of a signer.
fn signer_text(
    alloc: Global,
    file: &str,
    block: Option<usize>,
    content: Option<ContentComparison>,
    index: usize,
    report: &Report,
    format: Format,
) -> result::Result<String, AllocError>
    ensures { IfOk result (λ text. string_bytes text
        ≡ signer_text format file.now block content index report.now) }
{
    match format {
        Format::Text => signer_line(alloc, file, block, content, report),
        Format::Json => signer_object(alloc, file, block, content, index, report),
    }
}

// The line of a message without signers.
fn no_signers_text(
    alloc: Global,
    file: &str,
    block: Option<usize>,
    message: &Message,
    format: Format,
) -> result::Result<String, AllocError>
    ensures { IfOk result (λ text. string_bytes text
        ≡ no_signers_text format file.now block message.now) }
{
    match format {
        Format::Text => no_signers_line(alloc, file, block, message),
        Format::Json => no_signers_object(alloc, file, block, message),
    }
}

// The line of a message that is refused for this reason.
fn refusal_text(
    alloc: Global,
    file: &str,
    block: Option<usize>,
    reason: &Reason,
    format: Format,
) -> result::Result<String, AllocError>
    ensures { IfOk result (λ text. string_bytes text
        ≡ refusal_text format file.now block reason.now) }
{
    match format {
        Format::Text => refusal_line(alloc, file, block, &reason.text),
        Format::Json => refusal_object(alloc, file, block, reason),
    }
}
