//! What is at the front of bytes.
ghost use Rattle.std.specs.Prelude.{◌≡◌, ◌≤◌, ◌∷◌, ℕ, List, false, MatchOption};
ghost use Rattle.picky_der_core.specs.Tag.{number_of};
ghost use Rattle.der_ber.specs.Fronts.{IsEnd, IsFront};
ghost use Rattle.der_ber.specs.LongLengths.{is_reserved};

use crate::BerRule;
use crate::lengths::{AnyLength, split_length};
use picky_der_core::asn1::Tag;

// Where elements end.
#[derive(Clone, Copy)]
pub(crate) enum Until {
    // With the bytes.
    End,
    // Before an end-of-contents (X.690, 8.1.5).
    EndOfContents,
}

impl Until {
    // The bytes after the end, if the elements end here.
    pub(crate) fn split<'a>(self, bytes: &'a [u8]) -> Option<&'a [u8]>
        ensures { MatchOption result ((after : List ℕ) → IsEnd self bytes.now after → ⊥)
            (λ after. IsEnd self bytes.now after.now) }
    {
        match self {
            Until::End => bytes.is_empty().then_some(bytes),
            Until::EndOfContents => after_end_of_contents(bytes),
        }
    }
}

// The bytes after an end-of-contents, if one is at the front.
fn after_end_of_contents(bytes: &[u8]) -> Option<&[u8]>
    ensures { MatchOption result ((after : List ℕ) → IsEnd Until.EndOfContents bytes.now after → ⊥)
        (λ after. IsEnd Until.EndOfContents bytes.now after.now) }
{
    let [first, others @ ..] = bytes else {
        return None;
    };
    let [second, after @ ..] = others else {
        return None;
    };
    if *first == 0x00 && *second == 0x00 {
        Some(after)
    } else {
        None
    }
}

// An element at the front of bytes.
#[derive(Clone, Copy)]
pub(crate) enum Front<'a> {
    // A primitive one.
    Primitive {
        tag: Tag,
        content: &'a [u8],
        after: &'a [u8],
    },
    // A constructed one of the definite form.
    Definite {
        tag: Tag,
        content: &'a [u8],
        after: &'a [u8],
    },
    // A constructed one of the indefinite form, and the bytes from its content on.
    Indefinite {
        tag: Tag,
        inside: &'a [u8],
    },
    // One that breaks this rule.
    Broken(BerRule),
}

// What is at the front of bytes, where an element may have so many levels of constructed ones.
pub(crate) fn front_of(bytes: &[u8], room: usize) -> Front<'_>
    ensures { IsFront room bytes.now result }
{
    let [first, others @ ..] = bytes else {
        return Front::Broken(BerRule::CutHeader);
    };
    let tag = Tag::from(*first);
    if tag.number() > Tag::MAX_NUMBER {
        return Front::Broken(BerRule::LongTag);
    }
    if is_reserved(tag) {
        return Front::Broken(BerRule::EndOfContents);
    }
    front_with(tag, others, room)
}

// Whether no type has this tag.
fn is_reserved(tag: Tag) -> bool
    ensures { result ≡ is_reserved tag }
{
    tag.inner() == 0x00 || tag.inner() == 0x20
}

// The same after a tag.
fn front_with(tag: Tag, others: &[u8], room: usize) -> Front<'_>
    requires number { number_of tag ≤ 30 }
    requires free { is_reserved tag ≡ false }
    ensures { IsFront room (tag ∷ others.now) result }
{
    match split_length(others) {
        AnyLength::Broken(rule) => Front::Broken(rule),
        AnyLength::Definite { len, after } => {
            if len > after.len() {
                return Front::Broken(BerRule::PastEnd);
            }
            let (content, after) = after.split_at(len);
            if !tag.is_constructed() {
                Front::Primitive {
                    tag,
                    content,
                    after,
                }
            } else if room == 0 {
                Front::Broken(BerRule::TooDeep)
            } else {
                Front::Definite {
                    tag,
                    content,
                    after,
                }
            }
        }
        AnyLength::Indefinite { after } => {
            if !tag.is_constructed() {
                Front::Broken(BerRule::IndefinitePrimitive)
            } else if room == 0 {
                Front::Broken(BerRule::TooDeep)
            } else {
                Front::Indefinite { tag, inside: after }
            }
        }
    }
}
