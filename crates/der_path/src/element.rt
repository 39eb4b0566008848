//! Elements at the front of bytes.
ghost use Rattle.std.specs.Prelude.{◌≡◌, ◌++◌, ◌^◌, ◌<◌, length, IfSome, IfNone, MatchOption};
ghost use Rattle.picky_der_core.specs.Element.{length_octets};
ghost use Rattle.der_path.specs.Elements.{BeginsWith, BeginsWithNone, HasNoLength};

use picky_der_core::asn1::Tag;
use picky_der_core::misc::Length;

/// An element at the front of bytes, whatever its type.
#[derive(Debug, Clone, Copy)]
pub struct Element<'a> {
    /// Its tag, whose number is at most 30.
    pub tag: Tag,
    /// Its content.
    pub content: &'a [u8],
    /// The bytes after it.
    pub after: &'a [u8],
}

/// Returns the element at the front of these bytes, or `None`: the bytes end before the element does, its tag number is
/// past 30, or its length isn't that of DER (X.690, 8.1.2, 8.1.3, 10.1).
pub fn first_element(bytes: &[u8]) -> Option<Element<'_>>
    ensures { MatchOption result (BeginsWithNone bytes.now)
        (λ it. BeginsWith bytes.now it.tag it.content.now it.after.now) }
{
    let [first, others @ ..] = bytes else {
        return None;
    };
    let tag = Tag::from(*first);
    if tag.number() > Tag::MAX_NUMBER {
        return None;
    }
    let Some((len, rest)) = split_length(others) else {
        return None;
    };
    if len > rest.len() {
        return None;
    }
    let (content, after) = rest.split_at(len);
    Some(Element {
        tag,
        content,
        after,
    })
}

// The length at the front of these bytes, and the bytes after it.
fn split_length(bytes: &[u8]) -> Option<(usize, &[u8])>
    ensures some { IfSome result (λ pair. bytes.now ≡ length_octets pair.0 ++ pair.1.now) }
    ensures none { IfNone result (HasNoLength bytes.now) }
{
    let mut rest = bytes;
    match Length::deserialized(&mut rest) {
        Ok(len) => Some((len, rest)),
        Err(_) => None,
    }
}
