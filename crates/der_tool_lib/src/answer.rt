//! The answer to a line.
ghost use Rattle.std.specs.Prelude.{◌≡◌, codes, IfOk, IfErr, string_bytes};
ghost use Rattle.hex.specs.Hex.{encode_lower, decode_of};
ghost use Rattle.picky_der_core.specs.Element.{length_octets};
ghost use Rattle.der_tool_lib.specs.Answer.{AnswersDigits, IsAnswerTo};
ghost use Rattle.der_tool_lib.specs.Words.{word_of};

use crate::{Request, ValueType, answer_read};
use hex::FromHexError;
use picky_der_core::misc::{BufSink, Length};
use picky_der_core::{Asn1DerError, Result};
use std::alloc::Global;

/// Returns the answer to a line. Neither the line nor the answer has the byte that ends it. The only error is
/// `OutOfMemory`.
pub fn output_of(alloc: Global, line: &[u8]) -> Result<String>
    ensures ok { IfOk result (λ text. IsAnswerTo line.now (string_bytes text)) }
    ensures err { IfErr result (λ e. e ≡ Asn1DerError.OutOfMemory) }
{
    match Request::of(line) {
        Request::Len(n) => length_in_hex(alloc, n),
        Request::Read(named, digits) => answer_digits(alloc, named, digits),
        Request::Refused => refuse_line(alloc),
    }
}

// The answer to a line that asks for a value. It is a refusal if the digits aren't whole bytes in hexadecimal.
fn answer_digits(alloc: Global, named: ValueType, digits: &[u8]) -> Result<String>
    ensures ok { IfOk result (λ text. AnswersDigits named (decode_of digits.now)
        (string_bytes text)) }
    ensures err { IfErr result (λ e. e ≡ Asn1DerError.OutOfMemory) }
{
    match hex::decode(alloc, digits) {
        Ok(bytes) => answer_read(alloc, named, &bytes),
        Err(FromHexError::OutOfMemory) => Err(Asn1DerError::OutOfMemory),
        Err(FromHexError::InvalidHexCharacter { .. }) => refuse_line(alloc),
        Err(FromHexError::OddLength) => refuse_line(alloc),
        Err(FromHexError::InvalidStringLength) => refuse_line(alloc),
    }
}

fn refuse_line(alloc: Global) -> Result<String>
    ensures ok { IfOk result (λ text. string_bytes text ≡ codes "refused Line") }
    ensures err { IfErr result (λ e. e ≡ Asn1DerError.OutOfMemory) }
{
    Ok(String::from_str(alloc, "refused Line")?)
}

// The encoding of a length, in hexadecimal.
fn length_in_hex(alloc: Global, n: usize) -> Result<String>
    ensures ok { IfOk result (λ text. string_bytes text ≡ encode_lower (length_octets n)) }
    ensures err { IfErr result (λ e. e ≡ Asn1DerError.OutOfMemory) }
{
    let mut bytes = Vec::new(alloc);
    let mut sink = BufSink::new(&mut bytes);
    let outcome = Length::serialize(n, &mut sink);
    let written = sink.into_inner();
    // No effect at run time. The proof reads from this use what `bytes` holds.
    let _ = &*written;
    match outcome {
        Ok(_) => Ok(hex::encode(alloc, bytes)?),
        Err(error) => Err(error),
    }
}

/// Returns the name of the error's variant.
pub fn kind_word(error: Asn1DerError) -> &'static str
    ensures { result.now ≡ word_of error }
{
    match error {
        Asn1DerError::TruncatedData => "TruncatedData",
        Asn1DerError::InvalidData => "InvalidData",
        Asn1DerError::UnsupportedValue => "UnsupportedValue",
        Asn1DerError::UnsupportedType => "UnsupportedType",
        Asn1DerError::InvalidSink => "InvalidSink",
        Asn1DerError::Message(_) => "Message",
        Asn1DerError::Other(_) => "Other",
        Asn1DerError::OutOfMemory => "OutOfMemory",
    }
}
