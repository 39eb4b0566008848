//! Bytes as hexadecimal text, and back.
ghost use Rattle.std.specs.Prelude.{◌≡◌, ◌⊎◌, Ok, Err, IfOk, IfErr, string_bytes};
ghost use Rattle.hex.specs.Hex.{decode_of};
ghost use Rattle.hex.specs.declared.error.FromHexError.TheVariants.{OutOfMemory};
ghost use Rattle.der_fixtures.specs.Hexadecimal.{without_spaces, with_spaces};

use hex::FromHexError;
use std::alloc::{AllocError, Global};

/// Returns the bytes of a text of hexadecimal digits in upper or lower case, two for each byte. Spaces are skipped.
///
/// `OutOfMemory` if an allocation fails. The other errors are the errors of `hex::decode` for the text without its
/// spaces: an odd number of digits, or a character that isn't a digit.
pub fn bytes_of(alloc: Global, text: &str) -> Result<Vec<u8>, FromHexError>
    ensures ok { IfOk result (λ bytes. decode_of (without_spaces text.now) ≡ Ok bytes.items) }
    ensures err { IfErr result
        (λ e. (e ≡ OutOfMemory) ⊎ (decode_of (without_spaces text.now) ≡ Err e)) }
{
    let mut digits = Vec::new(alloc);
    if digits.extend_from_slice(text.as_bytes()).is_err() {
        return Err(FromHexError::OutOfMemory);
    }
    digits.retain(|digit| *digit != b' ');
    hex::decode(alloc, digits)
}

/// Returns two upper-case digits for each byte, with a space between any two bytes.
pub fn text_of(alloc: Global, bytes: &[u8]) -> Result<String, AllocError>
    ensures { IfOk result (λ text. string_bytes text ≡ with_spaces bytes.now) }
{
    let Some((first, others)) = bytes.split_first() else {
        return Ok(String::new(alloc));
    };
    let mut text = hex::encode_upper(alloc, [*first])?;
    for byte in others {
        text.push(' ')?;
        text.push_str(&hex::encode_upper(alloc, [*byte])?)?;
    }
    Ok(text)
}
