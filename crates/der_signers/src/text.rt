//! Lines of text. The only error of each function is a failed allocation.
ghost use Rattle.std.specs.Prelude.{◌≡◌, ◌++◌, [], ◌∷◌, IfOk, option_map, string_bytes};
ghost use Rattle.hex.specs.Hex.{encode_lower};
ghost use Rattle.der_program_base.specs.Line.{shown};
ghost use Rattle.der_signers.specs.Comparison.{hint_of};
ghost use Rattle.der_signers.specs.Text.{front_text, who_text, certificate_text, signer_text, no_signers_text};
ghost use Rattle.der_signers.specs.Text.{signer_words, compared_words, content_words, signed_words, signed_name};
ghost use Rattle.der_signers.specs.Text.{hint_words, counted, signer_line, no_signers_line, refusal_line};

use crate::comparison::{ContentComparison, DigestComparison, listed_word};
use crate::message::Message;
use crate::report::{Report, Signed};
use crate::who::{CertificateName, Who};
use der_program_base::Line;
use std::alloc::{AllocError, Global};

/// Returns the line of a signer in the message with this comparison of contents.
pub fn signer_line(
    alloc: Global,
    file: &str,
    block: Option<usize>,
    content: Option<ContentComparison>,
    report: &Report,
) -> Result<String, AllocError>
    ensures { IfOk result (λ line. string_bytes line
        ≡ signer_line file.now block content report.now) }
{
    let text = signer_text(alloc, file, block, content, report)?;
    shown_line(alloc, &text)
}

// The text of a signer's line.
fn signer_text(
    alloc: Global,
    file: &str,
    block: Option<usize>,
    content: Option<ContentComparison>,
    report: &Report,
) -> Result<String, AllocError>
    ensures { IfOk result (λ text. string_bytes text
        ≡ signer_text file.now block content report.now) }
{
    let front = front_text(alloc, file, block)?;
    let signer = signer_words(alloc, report)?;
    let compared = compared_words(alloc, content, report)?;
    let signed = signed_words(alloc, report.signed, &report.signed_digest)?;
    let hint = hint_words(alloc, report.message_digest)?;
    format!(in alloc; "{front}{signer}{compared}{signed}; signature not verified{hint}")
}

/// Returns the line of a message without signers.
pub fn no_signers_line(
    alloc: Global,
    file: &str,
    block: Option<usize>,
    message: &Message,
) -> Result<String, AllocError>
    ensures { IfOk result (λ line. string_bytes line
        ≡ no_signers_line file.now block message.now) }
{
    let text = no_signers_text(alloc, file, block, message)?;
    shown_line(alloc, &text)
}

// The text of the line of a message without signers.
fn no_signers_text(
    alloc: Global,
    file: &str,
    block: Option<usize>,
    message: &Message,
) -> Result<String, AllocError>
    ensures { IfOk result (λ text. string_bytes text
        ≡ no_signers_text file.now block message.now) }
{
    let front = front_text(alloc, file, block)?;
    let certificates = counted(alloc, message.certificates, "certificate")?;
    let lists = counted(alloc, message.lists, "list")?;
    let content = content_words(alloc, message.content)?;
    format!(in alloc; "{front}no signers; {certificates}, {lists}{content}")
}

/// Returns the line of a message that is refused for this reason.
pub fn refusal_line(
    alloc: Global,
    file: &str,
    block: Option<usize>,
    reason: &str,
) -> Result<String, AllocError>
    ensures { IfOk result (λ line. string_bytes line
        ≡ refusal_line file.now block reason.now) }
{
    let front = front_text(alloc, file, block)?;
    let text = format!(in alloc; "{front}{reason}")?;
    shown_line(alloc, &text)
}

// A text on one line, and the end of the line.
fn shown_line(alloc: Global, text: &str) -> Result<String, AllocError>
    ensures { IfOk result (λ line. string_bytes line ≡ shown text.now ++ 10 ∷ []) }
{
    let mut line = Line::new(alloc);
    line.push_str(text)?;
    let mut line = line.into_string();
    line.push_str("\n")?;
    Ok(line)
}

// What each line begins with.
fn front_text(alloc: Global, file: &str, block: Option<usize>) -> Result<String, AllocError>
    ensures { IfOk result (λ text. string_bytes text ≡ front_text file.now block) }
{
    match block {
        Some(number) => format!(in alloc; "{file}, block {number}: "),
        None => format!(in alloc; "{file}: "),
    }
}

// Who a signer is, and its algorithms.
fn signer_words(alloc: Global, report: &Report) -> Result<String, AllocError>
    ensures { IfOk result (λ text. string_bytes text ≡ signer_words report.now) }
{
    let who = who_text(alloc, &report.who)?;
    let digest = report.digest.as_str();
    let signature = report.signature.as_str();
    format!(in alloc; "{who}; digest {digest}; signature {signature}")
}

// The issuer and the serial number, or the key identifier.
fn who_text(alloc: Global, who: &Who) -> Result<String, AllocError>
    ensures { IfOk result (λ text. string_bytes text ≡ who_text who.now) }
{
    match who {
        Who::Certificate(name) => certificate_text(alloc, name),
        Who::KeyIdentifier(identifier) => {
            let identifier = hexadecimal(alloc, identifier.as_slice())?;
            format!(in alloc; "key identifier {identifier}")
        }
    }
}

// The issuer and the serial number.
fn certificate_text(alloc: Global, name: &CertificateName) -> Result<String, AllocError>
    ensures { IfOk result (λ text. string_bytes text ≡ certificate_text name.now) }
{
    let serial_number = hexadecimal(alloc, name.serial_number.as_slice())?;
    let issuer = name.issuer.as_str();
    format!(in alloc; "issuer {issuer}; serial number {serial_number}")
}

// What came of each comparison.
fn compared_words(
    alloc: Global,
    content: Option<ContentComparison>,
    report: &Report,
) -> Result<String, AllocError>
    ensures { IfOk result (λ text. string_bytes text ≡ compared_words content report.now) }
{
    let digest = report.message_digest.word();
    let kind = report.content_type.word();
    let attributes = report.attributes.word();
    let listed = listed_word(report.is_listed);
    let content = content_words(alloc, content)?;
    format!(in alloc;
        "; messageDigest {digest}; contentType {kind}; attributes {attributes}; digestAlgorithms {listed}{content}"
    )
}

// What came of comparing contents, if two were compared.
fn content_words(alloc: Global, content: Option<ContentComparison>) -> Result<String, AllocError>
    ensures { IfOk result (λ text. string_bytes text ≡ content_words content) }
{
    match content {
        Some(content) => {
            let word = content.word();
            format!(in alloc; "; content {word}")
        }
        None => Ok(String::new(alloc)),
    }
}

// The digest of what is signed, if there is one.
fn signed_words(
    alloc: Global,
    signed: Signed,
    digest: &Option<Vec<u8>>,
) -> Result<String, AllocError>
    ensures { IfOk result (λ text. string_bytes text
        ≡ signed_words signed (option_map (λ d. d.items) digest.now)) }
{
    match digest {
        Some(digest) => {
            let name = signed_name(signed);
            let digest = hexadecimal(alloc, digest.as_slice())?;
            format!(in alloc; "; {name} {digest}")
        }
        None => Ok(String::new(alloc)),
    }
}

// What a digest of what is signed is called.
fn signed_name(signed: Signed) -> &'static str
    ensures { result.now ≡ signed_name signed }
{
    match signed {
        Signed::Attributes => "digest of signed attributes",
        Signed::Content => "digest of content",
    }
}

// What is said of a digest that agrees with other line ends.
fn hint_words(alloc: Global, comparison: DigestComparison) -> Result<String, AllocError>
    ensures { IfOk result (λ text. string_bytes text ≡ hint_words (hint_of comparison)) }
{
    match comparison.hint() {
        Some(hint) => format!(in alloc; "; {hint}"),
        None => Ok(String::new(alloc)),
    }
}

// A number of things.
fn counted(alloc: Global, count: usize, thing: &str) -> Result<String, AllocError>
    ensures { IfOk result (λ text. string_bytes text ≡ counted count thing.now) }
{
    if count == 1 {
        format!(in alloc; "{count} {thing}")
    } else {
        format!(in alloc; "{count} {thing}s")
    }
}

// These bytes in lower case hexadecimal.
fn hexadecimal(alloc: Global, bytes: &[u8]) -> Result<String, AllocError>
    ensures { IfOk result (λ text. string_bytes text ≡ encode_lower bytes.now) }
{
    Ok(hex::encode(alloc, bytes)?)
}
