//! Where a part of an encoding is, such as the signed part of a certificate.
ghost use Rattle.std.specs.Prelude.{◌≡◌, ℕ, ◌+◌, ◌^◌, ◌<◌, ◌≤◌, ◌↔◌, ◌++◌, List, length, true, Some, IfSome, IfNone};
ghost use Rattle.std.specs.Prelude.{IsSomeAnd, IsTrue, IfOk, IfErr, slice_range};
ghost use Rattle.picky_der_core.specs.Element.{length_octets, tlv, IsElement, IsPrefix};
ghost use Rattle.picky_der_core.specs.Encoding.{der};
ghost use Rattle.picky_der_core.specs.Readable.{IsReadable};
ghost use Rattle.picky_der_core.specs.Tree.{Tree};
ghost use Rattle.picky_der_de.specs.Rules.{RefusesWholeBy};
ghost use Rattle.picky_der_de.specs.Whole.{IsWhole, IsNoEncoding};
ghost use Rattle.picky_asn1_der.specs.Parts.{first_member_of, has_first_member, part_at, WithoutTag, HasMember};
ghost use Rattle.picky_asn1_der.specs.Parts.{HasHeader, HasShortTag, IsHeaderOf, IsMemberAt, IsPartAt, IsPiece};

use crate::{DecodeError, Deserialize, Length, from_der};
use picky_der_core::asn1::Tag;
use std::alloc::Global;
use std::ops::Range;
use std::result::Result;

/// A value that was read, and where its signed part is in the input.
#[derive(Debug, Drop)]
pub struct Signed<T> {
    /// The value.
    pub value: T,
    /// The range of the bytes of its first member.
    pub part: Range<usize>,
}

/// Reads a signed message, as `from_der` does, and returns where its signed part is: its first member, as in a
/// certificate, a certificate list, a request and a response of OCSP.
///
/// The bytes there are the encoding of that member. A signature is verified over them, so the member needn't be written
/// again. The errors are those of `from_der`.
pub fn from_der_signed<T: Deserialize>(
    alloc: Global,
    bytes: &[u8],
) -> Result<Signed<T>, DecodeError>
    requires { has_first_member T.shape ≡ true }
    ensures value { IfOk result (λ it. IsWhole T.meaning T.shape T.eq bytes.now it.value) }
    ensures part { IfOk result (λ it. slice_range bytes.now it.part.start it.part.end
        ≡ der (first_member_of (T.meaning it.value))) }
    ensures within { IfOk result (λ it. (it.part.start ≤ it.part.end)
        × (it.part.end ≤ length bytes.now)) }
    ensures err { IfErr result (λ refusal. IsNoEncoding T.meaning T.shape bytes.now
        refusal.error refusal.position) }
    ensures refused_by { IfErr result (λ refusal. RefusesWholeBy T.meaning T.shape T.facts.rule
        bytes.now refusal.error refusal.position) }
{
    let value = from_der::<T>(alloc, bytes)?;
    match part_range(bytes, &[0]) {
        Some(part) => Ok(Signed { value, part }),
        None => unreachable!(),
    }
}

/// Returns where a part of an encoding is. A path leads to it: from each element to the member with the next index, of
/// those members that are there. The member of a tag or an octet string is what it holds.
///
/// Of the encoding of a certificate `&[0]` is the path of `tbsCertificate`. In a `SignedData` of CMS, `&[n, k, 3]` is
/// that of the signed attributes of a signer whose identifier, version and digest algorithm are before them, where `n`
/// is the index of `signerInfos`.
///
/// `None` if no element is there. Only bytes are looked at, so a path also leads into the content of a number, a string
/// or bits, if that is made of elements.
pub fn part_range(encoding: &[u8], path: &[usize]) -> Option<Range<usize>>
    ensures part { (t part : Tree) → IsReadable t → encoding.now ≡ der t
        → part_at path.now t ≡ Some part
        → IsSomeAnd result (λ range. slice_range encoding.now range.start range.end ≡ der part) }
    ensures found { IfSome result (λ range. IsPartAt path.now encoding.now range.start
        (slice_range encoding.now range.start range.end)) }
    ensures none { IfNone result ((offset : ℕ) (part : List ℕ)
        → IsPartAt path.now encoding.now offset part → ⊥) }
    ensures within { IfSome result (λ range. (range.start ≤ range.end)
        × (range.end ≤ length encoding.now)) }
{
    let mut part = encoding;
    let mut start = 0;
    for index in path {
        let Some((before, member)) = member_of(part, *index) else {
            return None;
        };
        start += before;
        part = member;
    }
    Some(start..start + part.len())
}

/// Under an implicit tag a list is written as it is by itself, but for the first byte. So the signed attributes of CMS
/// are hashed as the byte 31 and all bytes of their element but the first (RFC 5652, 5.4).
#[tactic(auto, using(crate::proofs::PartLemmas::without_tag))]
pub fn without_tag()
    ensures { WithoutTag }
{}

// The member with this index in the content of an element, and how many bytes of the element are before it. `None` if
// it has no such member, or if the bytes aren't one element.
fn member_of(element: &[u8], index: usize) -> Option<(usize, &[u8])>
    ensures found { (tag : ℕ) (content member : List ℕ) → element.now ≡ tlv tag content
        → HasMember index content member → IsSomeAnd result (λ pair. pair.1.now ≡ member) }
    ensures piece { IfSome result (λ pair. IsPiece element.now pair.0 pair.1.now) }
    ensures is { IfSome result (λ pair. IsMemberAt index element.now pair.0 pair.1.now) }
{
    let Some(header) = header_of(element) else {
        return None;
    };
    if header.len + header.content_len < element.len() {
        return None;
    }
    let mut rest = &element[header.len..];
    for _ in 0..index {
        let Some((_, after)) = split_element(rest) else {
            return None;
        };
        rest = after;
    }
    let Some((member, _)) = split_element(rest) else {
        return None;
    };
    Some((element.len() - rest.len(), member))
}

// The element at the front of the bytes, and the bytes after it. `None` if none is there, or one with a long tag.
fn split_element(bytes: &[u8]) -> Option<(&[u8], &[u8])>
    ensures found { (element rest : List ℕ) → IsElement element → bytes.now ≡ element ++ rest
        → IsSomeAnd result (λ pair. (pair.0.now ≡ element) × (pair.1.now ≡ rest)) }
    ensures all { IfSome result (λ pair. bytes.now ≡ pair.0.now ++ pair.1.now) }
    ensures element { IfSome result (λ pair. IsElement pair.0.now) }
{
    if !has_short_tag(bytes) {
        return None;
    }
    let Some(header) = header_of(bytes) else {
        return None;
    };
    Some(bytes.split_at(header.len + header.content_len))
}

// Whether the bytes begin with a tag of the short form.
fn has_short_tag(bytes: &[u8]) -> bool
    ensures { IsTrue result ↔ HasShortTag bytes.now }
{
    match bytes {
        [tag, ..] => Tag::from(*tag).number() <= Tag::MAX_NUMBER,
        [] => false,
    }
}

// The tag and the length of an element: how many bytes they are, and how many the content has.
#[derive(Clone, Copy)]
struct Header {
    len: usize,
    content_len: usize,
}

// The header of the element at the front of the bytes.
fn header_of(bytes: &[u8]) -> Option<Header>
    ensures found { (tag : ℕ) (content rest : List ℕ) → bytes.now ≡ tlv tag content ++ rest
        → IsSomeAnd result (IsHeaderOf content) }
    ensures is { IfSome result (HasHeader bytes.now) }
    ensures within { IfSome result (λ header. header.len + header.content_len
        ≤ length bytes.now) }
{
    let len = bytes.len();
    let [_, after @ ..] = bytes else {
        return None;
    };
    let Some((content_len, rest)) = split_length(after) else {
        return None;
    };
    if content_len > rest.len() {
        return None;
    }
    Some(Header {
        len: len - rest.len(),
        content_len,
    })
}

// The length at the front of the bytes, and the bytes after it.
fn split_length(bytes: &[u8]) -> Option<(usize, &[u8])>
    ensures some { IfSome result (λ pair. bytes.now ≡ length_octets pair.0 ++ pair.1.now) }
    ensures none { IfNone result ((n : ℕ) → n < 2 ^ 64 → IsPrefix (length_octets n) bytes.now → ⊥) }
{
    let mut rest = bytes;
    match Length::deserialized(&mut rest) {
        Ok(len) => Some((len, rest)),
        Err(_) => None,
    }
}
