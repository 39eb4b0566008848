//! What is printed of a certificate. The only error of each function is a failed allocation.
ghost use Rattle.std.specs.Prelude.{◌≡◌, IfOk, string_bytes};
ghost use Rattle.serde_json.specs.View.{view};
ghost use Rattle.der_types.specs.DateTimes.{date_time_text};
ghost use Rattle.der_read.specs.Certificates.{algorithm_text, extension_count, key_text, validity_text};
ghost use Rattle.der_read.specs.Certificates.{IsCertificatePrinted, IsOutcomeLine, IsSummary, IsTimeText};
ghost use Rattle.der_read.specs.Certificates.{left_over_text, outcome_status, sameness_text, summary_data};
ghost use Rattle.der_read.specs.Certificates.{summary_line, summary_text};

use crate::explanation::explanation_of;
use crate::names::{dotted_text, name_text};
use crate::printed::{ended, refusal_line};
use crate::{MessageType, Outcome, block_value, examine, place_text};
use der_program_base::{Format, Printed, Status, json_line};
use der_types::names::name_of;
use der_types::{DateTime, ObjectIdentifier};
use der_x509::{TbsCertificate, Time};
use serde_json::{Value, json};
use std::alloc::{AllocError, Global};

// What is printed of the members of a certificate.
#[derive(Drop)]
struct Summary {
    subject: String,
    issuer: String,
    serial_number: String,
    not_before: String,
    not_after: String,
    key_algorithm: String,
    extensions: usize,
}

/// Reads bytes as a certificate and returns the line on it: its subject, the times, the algorithm of the key, the
/// number of extensions, and whether it is written as the same bytes. In JSON it also has the issuer and the serial
/// number.
///
/// The line begins with the file and, for a block of PEM, its number. For other bytes it says why they are refused.
pub fn certificate_line(
    alloc: Global,
    format: Format,
    file: &str,
    block: Option<usize>,
    bytes: &[u8],
) -> Result<Printed, AllocError>
    ensures { IfOk result (IsCertificatePrinted format file.now block bytes.now) }
{
    let outcome = examine(alloc, bytes)?;
    let line = outcome_line(alloc, format, file, block, bytes, &outcome)?;
    let text = ended(alloc, &line)?;
    let status = status_of(&outcome);
    Ok(Printed { text, status })
}

fn status_of(outcome: &Outcome) -> Status
    ensures { result ≡ outcome_status outcome.now }
{
    match outcome {
        Outcome::Read(_) => Status::Fine,
        _ => Status::Refused,
    }
}

// The line on what came of reading these bytes.
fn outcome_line(
    alloc: Global,
    format: Format,
    file: &str,
    block: Option<usize>,
    bytes: &[u8],
    outcome: &Outcome,
) -> Result<String, AllocError>
    ensures { IfOk result (λ line. IsOutcomeLine format file.now block bytes.now outcome.now
        (string_bytes line)) }
{
    match outcome {
        Outcome::Read(reading) => {
            let summary = summary_of(alloc, &reading.certificate.tbs_certificate)?;
            summary_line(alloc, format, file, block, &summary, reading.is_same)
        }
        Outcome::Refused(refusal) => {
            let reason = explanation_of(alloc, MessageType::Certificate, bytes, *refusal)?;
            let text = format!(in alloc; "no certificate: {reason}")?;
            refusal_line(
                alloc,
                format,
                file,
                block,
                Value::from(reason.offset),
                &text,
            )
        }
        Outcome::LeftOver(taken) => {
            let text = left_over_text(alloc, *taken, bytes.len())?;
            refusal_line(alloc, format, file, block, Value::from(*taken), &text)
        }
    }
}

// Why bytes are refused of which so many are a certificate.
fn left_over_text(alloc: Global, taken: usize, size: usize) -> Result<String, AllocError>
    ensures { IfOk result (λ text. string_bytes text ≡ left_over_text taken size) }
{
    let left = size.saturating_sub(taken);
    format!(in alloc; "refused at {taken}: {left} bytes after the certificate")
}

// What is printed of the members.
fn summary_of(alloc: Global, signed: &TbsCertificate) -> Result<Summary, AllocError>
    ensures { IfOk result (IsSummary signed.now) }
{
    Ok(Summary {
        subject: name_text(alloc, &signed.subject)?,
        issuer: name_text(alloc, &signed.issuer)?,
        serial_number: hex::encode(alloc, signed.serial_number.content())?,
        not_before: time_text(alloc, &signed.validity.not_before)?,
        not_after: time_text(alloc, &signed.validity.not_after)?,
        key_algorithm: algorithm_text(alloc, &signed.subject_public_key_info.algorithm.algorithm)?,
        extensions: extension_count(signed),
    })
}

// How many extensions there are.
fn extension_count(signed: &TbsCertificate) -> usize
    ensures { result ≡ extension_count signed.now }
{
    match &signed.extensions {
        Some(extensions) => extensions.0.get().len(),
        None => 0,
    }
}

// The name of an algorithm and its arcs, as in `rsaEncryption (1.2.840.113549.1.1.1)`.
fn algorithm_text(alloc: Global, identifier: &ObjectIdentifier) -> Result<String, AllocError>
    ensures { IfOk result (λ text. (name : _)
        × (string_bytes text ≡ algorithm_text name identifier.now)) }
{
    let dotted = dotted_text(alloc, identifier)?;
    match name_of(identifier.content()) {
        Some(name) => format!(in alloc; "{name} ({dotted})"),
        None => Ok(dotted),
    }
}

// A time, as 2026-11-27T23:12:00Z.
fn time_text(alloc: Global, time: &Time) -> Result<String, AllocError>
    ensures { IfOk result (λ text. IsTimeText time.now (string_bytes text)) }
{
    match time {
        Time::UtcTime(time) => date_time_text(alloc, time.date_time()),
        Time::GeneralTime(time) => date_time_text(alloc, time.get().whole_seconds()),
    }
}

fn date_time_text(alloc: Global, at: DateTime) -> Result<String, AllocError>
    ensures { IfOk result (λ text. string_bytes text ≡ date_time_text at) }
{
    format!(in alloc; "{at}")
}

// The line of a certificate that was read.
fn summary_line(
    alloc: Global,
    format: Format,
    file: &str,
    block: Option<usize>,
    summary: &Summary,
    is_same: bool,
) -> Result<String, AllocError>
    ensures { IfOk result (λ line. string_bytes line
        ≡ summary_line format file.now block summary.now is_same) }
{
    match format {
        Format::Text => {
            let place = place_text(alloc, file, block)?;
            let text = summary_text(alloc, summary, is_same)?;
            format!(in alloc; "{place}{text}")
        }
        Format::Json => {
            let value = summary_value(alloc, file, block, summary, is_same)?;
            json_line(alloc, &value)
        }
    }
}

fn summary_text(alloc: Global, summary: &Summary, is_same: bool) -> Result<String, AllocError>
    ensures { IfOk result (λ text. string_bytes text ≡ summary_text summary.now is_same) }
{
    let subject = summary.subject.as_str();
    let validity = validity_text(alloc, summary)?;
    let key = key_text(alloc, summary)?;
    let sameness = sameness(is_same);
    format!(in alloc; "ok {subject}; {validity}; {key}; {sameness}")
}

// From when to when the certificate is valid.
fn validity_text(alloc: Global, summary: &Summary) -> Result<String, AllocError>
    ensures { IfOk result (λ text. string_bytes text ≡ validity_text summary.now) }
{
    let not_before = summary.not_before.as_str();
    let not_after = summary.not_after.as_str();
    format!(in alloc; "{not_before} to {not_after}")
}

// The algorithm of the key, and how many extensions there are.
fn key_text(alloc: Global, summary: &Summary) -> Result<String, AllocError>
    ensures { IfOk result (λ text. string_bytes text ≡ key_text summary.now) }
{
    let algorithm = summary.key_algorithm.as_str();
    let count = summary.extensions;
    format!(in alloc; "{algorithm}; {count} extensions")
}

// Whether a certificate is written as the same bytes.
fn sameness(is_same: bool) -> &'static str
    ensures { result.now ≡ sameness_text is_same }
{
    if is_same { "same bytes" } else { "other bytes" }
}

// The object of a certificate that was read.
fn summary_value(
    alloc: Global,
    file: &str,
    block: Option<usize>,
    summary: &Summary,
    is_same: bool,
) -> Result<Value, AllocError>
    ensures { IfOk result (λ value. view value
        ≡ summary_data file.now block summary.now is_same) }
{
    let block = block_value(block);
    let subject = summary.subject.as_str();
    let issuer = summary.issuer.as_str();
    let serial_number = summary.serial_number.as_str();
    let not_before = summary.not_before.as_str();
    let not_after = summary.not_after.as_str();
    let algorithm = summary.key_algorithm.as_str();
    let count = summary.extensions;
    json!(in alloc; {
        "file": file,
        "block": block,
        "subject": subject,
        "issuer": issuer,
        "serialNumber": serial_number,
        "notBefore": not_before,
        "notAfter": not_after,
        "keyAlgorithm": algorithm,
        "extensions": count,
        "sameBytes": is_same
    })
}
