//! What a text without blocks of PEM seems to be.
ghost use Rattle.std.specs.Prelude.{◌≡◌, IfOk};
ghost use Rattle.std.specs.List.{list_any};
ghost use Rattle.der_program_base.specs.Guess.{guess_of, has_mark, is_blank, is_hexadecimal, is_base64, is_mail_field};
ghost use Rattle.der_program_base.specs.Guess.{begins_with_hyphens, has_hyphens};
ghost use Rattle.der_program_base.specs.Lines.{texts, lines_of};

use crate::blocks::decoded;
use std::alloc::{AllocError, Global};

const BYTE_ORDER_MARK: &[u8] = b"\xEF\xBB\xBF";

/// What an input that is neither DER nor has a block of PEM seems to be.
#[derive(Clone, Copy, Debug)]
pub enum Guess {
    /// Nothing but white space.
    Nothing,
    /// A text that begins with a byte order mark.
    ByteOrderMark,
    /// Hexadecimal digits.
    Hexadecimal,
    /// Base64 without begin and end lines.
    Base64,
    /// A mail, whose body may have a message in base64.
    Mail,
    /// A line with hyphens as in PEM, which is neither a begin line nor an end line.
    NearlyPem,
    /// Any other text.
    Text,
}

impl Guess {
    /// Returns a sentence that says what the input seems to be, and what to do with it.
    pub fn sentence(self) -> &'static str {
        match self {
            Guess::Nothing => "this is empty",
            Guess::ByteOrderMark =>
                "this begins with a byte order mark; save it as UTF-8 without one",
            Guess::Hexadecimal => {
                "this seems to be hexadecimal; convert it first, as with xxd -r -p"
            }
            Guess::Base64 => "this seems to be base64; decode it first, as with base64 -d",
            Guess::Mail => {
                "this seems to be a mail; cut out its base64 part and decode it first, as with base64 -d"
            }
            Guess::NearlyPem => {
                "this has no block of PEM, but a line that nearly begins one, which would be -----BEGIN LABEL-----"
            }
            Guess::Text => "this is text without a block of PEM",
        }
    }
}

/// Returns what a text with these lines seems to be. A byte order mark isn't looked for.
pub(crate) fn guess_of(alloc: Global, input: &[u8], lines: &[&[u8]]) -> Result<Guess, AllocError>
    requires { texts lines.now ≡ lines_of input.now }
    ensures { IfOk result (λ guess. guess ≡ guess_of input.now) }
{
    if is_blank(input) {
        return Ok(Guess::Nothing);
    }
    if is_hexadecimal(input) {
        return Ok(Guess::Hexadecimal);
    }
    if is_base64(alloc, input)? {
        return Ok(Guess::Base64);
    }
    if some_mail_field(lines) {
        return Ok(Guess::Mail);
    }
    if some_hyphens(lines) {
        return Ok(Guess::NearlyPem);
    }
    Ok(Guess::Text)
}

/// Returns whether an input begins with the byte order mark in UTF-8.
pub(crate) fn has_mark(input: &[u8]) -> bool
    ensures { result ≡ has_mark input.now }
{
    input.starts_with(BYTE_ORDER_MARK)
}

fn is_blank(input: &[u8]) -> bool
    ensures { result ≡ is_blank input.now }
{
    input.iter().all(|byte| byte.is_ascii_whitespace())
}

fn is_hexadecimal(input: &[u8]) -> bool
    ensures { result ≡ is_hexadecimal input.now }
{
    input.iter().all(|byte| byte.is_ascii_hexdigit() || byte.is_ascii_whitespace())
}

fn is_base64(alloc: Global, input: &[u8]) -> Result<bool, AllocError>
    ensures { IfOk result (λ is. is ≡ is_base64 input.now) }
{
    Ok(decoded(alloc, &[input])?.is_ok())
}

fn some_mail_field(lines: &[&[u8]]) -> bool
    ensures { result ≡ list_any is_mail_field (texts lines.now) }
{
    lines.iter().any(|line| is_mail_field(line))
}

fn is_mail_field(line: &[u8]) -> bool
    ensures { result ≡ is_mail_field line.now }
{
    line.starts_with(b"MIME-Version:") || line.starts_with(b"Content-Type:")
}

fn some_hyphens(lines: &[&[u8]]) -> bool
    ensures { result ≡ list_any has_hyphens (texts lines.now) }
{
    lines.iter().any(|line| has_hyphens(line))
}

fn has_hyphens(line: &[u8]) -> bool
    ensures { result ≡ has_hyphens line.now }
{
    begins_with_hyphens(line.trim_ascii())
}

fn begins_with_hyphens(text: &[u8]) -> bool
    ensures { result ≡ begins_with_hyphens text.now }
{
    text.starts_with(b"----")
}
