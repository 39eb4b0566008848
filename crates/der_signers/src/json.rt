//! Lines of JSON. The only error of each function is a failed allocation.
ghost use Rattle.std.specs.Prelude.{◌≡◌, ◌++◌, [], ◌∷◌, false, IfOk, option_map, string_bytes};
ghost use Rattle.serde_json.specs.View.{view};
ghost use Rattle.serde_json.specs.Written.{has_float};
ghost use Rattle.der_program_base.specs.Json.{json_line};
ghost use Rattle.der_signers.specs.Json.{number_data, certificate_data, comparisons_data, content_data, digest_data};
ghost use Rattle.der_signers.specs.Json.{digests_data, hint_data, no_signers_data, refused_data, signer_data, who_data};

use crate::comparison::{ContentComparison, DigestComparison, listed_word};
use crate::message::Message;
use crate::reason::Reason;
use crate::report::{Report, Signed};
use crate::who::{CertificateName, Who};
use der_program_base::json_line;
use serde_json::{Value, json};
use std::alloc::{AllocError, Global};

/// Returns the object of a signer, which has this index in the message with this comparison of contents.
pub fn signer_object(
    alloc: Global,
    file: &str,
    block: Option<usize>,
    content: Option<ContentComparison>,
    index: usize,
    report: &Report,
) -> Result<String, AllocError>
    ensures { IfOk result (λ line. string_bytes line
        ≡ json_line (signer_data file.now block content index report.now) ++ 10 ∷ []) }
{
    let value = signer_value(alloc, file, block, content, index, report)?;
    line_of(alloc, &value)
}

/// Returns the object of a message without signers.
pub fn no_signers_object(
    alloc: Global,
    file: &str,
    block: Option<usize>,
    message: &Message,
) -> Result<String, AllocError>
    ensures { IfOk result (λ line. string_bytes line
        ≡ json_line (no_signers_data file.now block message.now) ++ 10 ∷ []) }
{
    let value = no_signers_value(alloc, file, block, message)?;
    line_of(alloc, &value)
}

/// Returns the object of a message that is refused for this reason.
pub fn refusal_object(
    alloc: Global,
    file: &str,
    block: Option<usize>,
    reason: &Reason,
) -> Result<String, AllocError>
    ensures { IfOk result (λ line. string_bytes line
        ≡ json_line (refused_data file.now block reason.now) ++ 10 ∷ []) }
{
    let value = refused_value(alloc, file, block, reason)?;
    line_of(alloc, &value)
}

// The text of an object, with no space outside of its strings, and the end of the line.
fn line_of(alloc: Global, value: &Value) -> Result<String, AllocError>
    requires { has_float (view value.now) ≡ false }
    ensures { IfOk result (λ line. string_bytes line ≡ json_line (view value.now) ++ 10 ∷ []) }
{
    let mut line = json_line(alloc, value)?;
    line.push_str("\n")?;
    Ok(line)
}

// The object of a signer.
fn signer_value(
    alloc: Global,
    file: &str,
    block: Option<usize>,
    content: Option<ContentComparison>,
    index: usize,
    report: &Report,
) -> Result<Value, AllocError>
    ensures { IfOk result (λ value. view value
        ≡ signer_data file.now block content index report.now) }
{
    let block = number_value(block);
    let signer = who_value(alloc, &report.who, &report.digest, &report.signature)?;
    let comparisons = comparisons_value(alloc, content, report)?;
    let digests = digests_value(alloc, report.signed, &report.signed_digest)?;
    json!(in alloc; {
        "file": file,
        "block": block,
        "signerIndex": index,
        "signer": signer,
        "comparisons": comparisons,
        "digests": digests,
        "verified": false
    })
}

// What came of each comparison.
fn comparisons_value(
    alloc: Global,
    content: Option<ContentComparison>,
    report: &Report,
) -> Result<Value, AllocError>
    ensures { IfOk result (λ value. view value ≡ comparisons_data content report.now) }
{
    let digest = report.message_digest.word();
    let kind = report.content_type.word();
    let attributes = report.attributes.word();
    let listed = listed_word(report.is_listed);
    let content = content_value(alloc, content)?;
    let hint = hint_value(alloc, report.message_digest)?;
    json!(in alloc; {
        "messageDigest": digest,
        "contentType": kind,
        "attributes": attributes,
        "digestAlgorithms": listed,
        "content": content,
        "hint": hint
    })
}

// The digest of what is signed: of the signed attributes, or of the content.
fn digests_value(
    alloc: Global,
    signed: Signed,
    digest: &Option<Vec<u8>>,
) -> Result<Value, AllocError>
    ensures { IfOk result (λ value. view value
        ≡ digests_data signed (option_map (λ d. d.items) digest.now)) }
{
    let digest = digest_value(alloc, digest)?;
    match signed {
        Signed::Attributes => { json!(in alloc; {"signedAttributes": digest, "content": null}) }
        Signed::Content => json!(in alloc; {"signedAttributes": null, "content": digest}),
    }
}

// The object of a message without signers.
fn no_signers_value(
    alloc: Global,
    file: &str,
    block: Option<usize>,
    message: &Message,
) -> Result<Value, AllocError>
    ensures { IfOk result (λ value. view value ≡ no_signers_data file.now block message.now) }
{
    let block = number_value(block);
    let content = content_value(alloc, message.content)?;
    json!(in alloc; {
        "file": file,
        "block": block,
        "signers": 0,
        "certificates": message.certificates,
        "lists": message.lists,
        "content": content,
        "verified": false
    })
}

// The object of a refusal.
fn refused_value(
    alloc: Global,
    file: &str,
    block: Option<usize>,
    reason: &Reason,
) -> Result<Value, AllocError>
    ensures { IfOk result (λ value. view value ≡ refused_data file.now block reason.now) }
{
    let block = number_value(block);
    let offset = number_value(reason.offset);
    let text = reason.text.as_str();
    json!(in alloc; {
        "file": file,
        "block": block,
        "offset": offset,
        "refused": text,
        "verified": false
    })
}

// A number, or null.
fn number_value(number: Option<usize>) -> Value
    ensures { view result ≡ number_data number }
{
    match number {
        Some(number) => Value::from(number),
        None => Value::Null,
    }
}

// The issuer and the serial number or the key identifier, and the names of the algorithms.
fn who_value(alloc: Global, who: &Who, digest: &str, signature: &str) -> Result<Value, AllocError>
    ensures { IfOk result (λ value. view value ≡ who_data who.now digest.now signature.now) }
{
    match who {
        Who::Certificate(name) => certificate_value(alloc, name, digest, signature),
        Who::KeyIdentifier(identifier) => {
            let identifier = hex::encode(alloc, identifier.as_slice())?;
            json!(in alloc; {
                "subjectKeyIdentifier": identifier,
                "digestAlgorithm": digest,
                "signatureAlgorithm": signature
            })
        }
    }
}

// The issuer and the serial number, and the names of the algorithms.
fn certificate_value(
    alloc: Global,
    name: &CertificateName,
    digest: &str,
    signature: &str,
) -> Result<Value, AllocError>
    ensures { IfOk result (λ value. view value
        ≡ certificate_data name.now digest.now signature.now) }
{
    let issuer = name.issuer.as_str();
    let serial_number = hex::encode(alloc, name.serial_number.as_slice())?;
    json!(in alloc; {
        "issuer": issuer,
        "serialNumber": serial_number,
        "digestAlgorithm": digest,
        "signatureAlgorithm": signature
    })
}

// What came of comparing contents, or null.
fn content_value(alloc: Global, content: Option<ContentComparison>) -> Result<Value, AllocError>
    ensures { IfOk result (λ value. view value ≡ content_data content) }
{
    match content {
        Some(content) => Ok(Value::String(String::from_str(alloc, content.word())?)),
        None => Ok(Value::Null),
    }
}

// A digest, or null.
fn digest_value(alloc: Global, digest: &Option<Vec<u8>>) -> Result<Value, AllocError>
    ensures { IfOk result (λ value. view value
        ≡ digest_data (option_map (λ d. d.items) digest.now)) }
{
    match digest {
        Some(digest) => Ok(Value::String(hex::encode(alloc, digest.as_slice())?)),
        None => Ok(Value::Null),
    }
}

// What is said of a digest that agrees with other line ends, or null.
fn hint_value(alloc: Global, comparison: DigestComparison) -> Result<Value, AllocError>
    ensures { IfOk result (λ value. view value ≡ hint_data comparison) }
{
    match comparison.hint() {
        Some(hint) => Ok(Value::String(String::from_str(alloc, hint)?)),
        None => Ok(Value::Null),
    }
}
