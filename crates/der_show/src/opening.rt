//! Strings that hold DER.
ghost use Rattle.std.specs.Prelude.{◌≡◌, ℕ, IfOk, MatchBool, MatchOption};
ghost use Rattle.std.specs.Option.{option_map};
ghost use Rattle.der_show.specs.Openings.{held, IsOneInDer, Opens};

use crate::{ShowOptions, complaint_of, header_of};
use picky_der_core::asn1::Tag;
use std::alloc::{AllocError, Global};

// Strings at a depth below this one are opened.
const DEEPEST: usize = 64;

// Returns how many bytes of the content of a string are before the element in it, or `None` if it isn't listed together
// with one.
pub(crate) fn opening_of(
    alloc: Global,
    options: &ShowOptions,
    depth: usize,
    tag: Tag,
    content: &[u8],
) -> Result<Option<usize>, AllocError>
    ensures { IfOk result
        (λ opening. MatchOption opening ((skipped : ℕ) → Opens options.now depth tag content.now skipped → ⊥)
        (λ skipped. Opens options.now depth tag content.now skipped)) }
{
    if options.is_flat || depth >= DEEPEST {
        return Ok(None);
    }
    match held(tag, content) {
        Some((skipped, bytes)) if is_one_in_der(alloc, bytes)? => Ok(Some(skipped)),
        _ => Ok(None),
    }
}

// The bytes that an OCTET STRING or a BIT STRING holds, and how many bytes of the content are before them.
fn held(tag: Tag, content: &[u8]) -> Option<(usize, &[u8])>
    ensures { option_map (λ pair. (pair.0, pair.1.now)) result ≡ held tag content.now }
{
    match (tag.inner(), content) {
        (0x04, bytes) => Some((0, bytes)),
        (0x03, [0, bytes @ ..]) => Some((1, bytes)),
        _ => None,
    }
}

// Whether the bytes are one element in DER and nothing else.
fn is_one_in_der(alloc: Global, bytes: &[u8]) -> Result<bool, AllocError>
    ensures { IfOk result (λ is. MatchBool is (IsOneInDer bytes.now) (IsOneInDer bytes.now → ⊥)) }
{
    let header = match header_of(bytes) {
        Ok(header) => header,
        Err(_) => return Ok(false),
    };
    if header.header_len + header.content_len != bytes.len() {
        return Ok(false);
    }
    Ok(complaint_of(alloc, bytes)?.is_none())
}
