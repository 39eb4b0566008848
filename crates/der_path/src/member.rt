//! The element that has a byte.
ghost use Rattle.std.specs.Prelude.{◌≡◌, ◌+◌, ◌≤◌, ℕ, List, length, MatchOption};
ghost use Rattle.der_path.specs.Members.{IsMemberAt, IsWithin, IsInside, IsSkipped};

use crate::first_element;

/// One of several elements, one after another.
#[derive(Debug, Clone, Copy)]
pub struct Member<'a> {
    /// How many elements are before it.
    pub index: usize,
    /// How many bytes are before it.
    pub offset: usize,
    /// The bytes from its tag on, up to the end of the last element.
    pub bytes: &'a [u8],
}

/// Returns the member that has the byte at this place, or `None` if there are no more bytes than that.
///
/// The bytes are elements one after another. What follows the last element that can be read as one counts as a member
/// too.
pub fn member_at(bytes: &[u8], place: usize) -> Option<Member<'_>>
    ensures { MatchOption result (length bytes.now ≤ place)
        (λ it. IsMemberAt bytes.now place it.index it.offset it.bytes.now) }
{
    if place >= bytes.len() {
        return None;
    }
    let mut index = 0;
    let mut offset = 0;
    let mut rest = bytes;
    while let Some(after) = skip(rest, place - offset) {
        index += 1;
        offset = bytes.len() - after.len();
        rest = after;
    }
    Some(Member {
        index,
        offset,
        bytes: rest,
    })
}

// The bytes after the element at the front, if it doesn't have the byte at this place.
fn skip(bytes: &[u8], place: usize) -> Option<&[u8]>
    ensures { MatchOption result (IsWithin bytes.now place) (λ after. IsSkipped bytes.now place after.now) }
{
    let Some(element) = first_element(bytes) else {
        return None;
    };
    let len = bytes.len() - element.after.len();
    if place < len {
        None
    } else {
        Some(element.after)
    }
}

/// Returns the content of the constructed element at the front of these bytes, and the place there of the byte at this
/// place. It is `None` if no such element is at the front, or its content doesn't have the byte.
pub fn content_at(bytes: &[u8], place: usize) -> Option<(&[u8], usize)>
    ensures { MatchOption result ((content : List ℕ) (inner : ℕ) → IsInside bytes.now place content inner → ⊥)
        (λ pair. IsInside bytes.now place pair.0.now pair.1) }
{
    let Some(element) = first_element(bytes) else {
        return None;
    };
    if !element.tag.is_constructed() {
        return None;
    }
    let content_len = element.content.len();
    let start = bytes.len() - element.after.len() - content_len;
    if place < start {
        return None;
    }
    let inner = place - start;
    if inner < content_len {
        Some((element.content, inner))
    } else {
        None
    }
}
