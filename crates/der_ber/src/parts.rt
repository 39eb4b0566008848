//! What is written of elements.
ghost use Rattle.std.specs.Prelude.{◌≡◌, ◌+◌, ◌++◌, ◌∷◌, length, IfOk, OnOk, IfErr};
ghost use Rattle.picky_der_core.specs.Element.{length_octets};
ghost use Rattle.der_ber.specs.Parts.{part_bytes, written};

use crate::BerError;
use picky_der_core::asn1::Tag;
use picky_der_core::misc::Length;
use std::alloc::{AllocError, Global};

// Bytes of an element in DER.
#[derive(Clone, Copy)]
pub(crate) enum Part<'a> {
    // A tag, and the length of a content of so many bytes.
    Header { tag: Tag, content_len: usize },
    // Bytes of the input, which are in a content.
    Content(&'a [u8]),
    // How many bits of the last byte of a BIT STRING are unused.
    UnusedBits(u8),
}

// The bytes of these parts, which are so many.
pub(crate) fn written(alloc: Global, parts: &[Part<'_>], size: usize) -> Result<Vec<u8>, AllocError>
    ensures { IfOk result (λ bytes. bytes.items ≡ written parts.now) }
{
    let mut bytes = Vec::with_capacity(alloc, size)?;
    for part in parts {
        push_part(&mut bytes, part)?;
    }
    Ok(bytes)
}

// Appends the bytes of a part.
fn push_part(bytes: &mut Vec<u8>, part: &Part<'_>) -> Result<(), AllocError>
    ensures { OnOk result (bytes.new.items ≡ bytes.old.items ++ part_bytes part.now) }
{
    match *part {
        Part::Header { tag, content_len } => push_header(bytes, tag, content_len),
        Part::Content(content) => bytes.extend_from_slice(content),
        Part::UnusedBits(count) => {
            bytes.push(count)?;
            Ok(())
        }
    }
}

// Appends a tag and a length.
fn push_header(bytes: &mut Vec<u8>, tag: Tag, content_len: usize) -> Result<(), AllocError>
    ensures { OnOk result (bytes.new.items ≡ bytes.old.items ++ tag ∷ length_octets content_len) }
{
    bytes.push(tag.inner())?;
    bytes.extend_from_slice(&Length::bytes(content_len))
}

// The sum of two sizes, or `OutOfMemory`.
pub(crate) fn sum(size: usize, other: usize) -> Result<usize, BerError>
    ensures ok { IfOk result (λ sum. sum ≡ size + other) }
    ensures err { IfErr result (λ e. e ≡ BerError.OutOfMemory) }
{
    size.checked_add(other).ok_or(BerError::OutOfMemory)
}

// How many bytes an element has in DER whose content has so many, or `OutOfMemory`.
pub(crate) fn element_size(content_len: usize) -> Result<usize, BerError>
    ensures ok { IfOk result (λ size. size ≡ 1 + length (length_octets content_len) + content_len) }
    ensures err { IfErr result (λ e. e ≡ BerError.OutOfMemory) }
{
    sum(1 + Length::encoded_len(content_len), content_len)
}
