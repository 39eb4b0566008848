//! Goes from element to element without memory: the caller keeps the place and the ends.
ghost use Rattle.std.specs.Prelude.{◌≡◌, ◌+◌, ◌^◌, ◌<◌, ◌≤◌, true, List, length, MatchOption};
ghost use Rattle.picky_der_core.specs.Tag.{is_constructed};
ghost use Rattle.der_show.specs.Ends.{innermost, next_offset, next_ends};
ghost use Rattle.der_show.specs.Walks.{open_ends, IsInside, IsWalked, IsNext, ComesNext};

use crate::ends::depth_at;
use crate::outline::{Front, front_of};
use crate::{Element, Header, Rule};

/// A place in a walk over the elements of bytes. A walk begins at the place with zeros.
#[derive(Debug, Clone, Copy, PartialEq, Eq)]
pub struct Place {
    /// The index of the tag of the next element, or how many bytes there are.
    pub offset: usize,
    /// How many elements are around it.
    pub depth: usize,
}

/// What is next in a walk.
#[derive(Debug, Clone, Copy, PartialEq, Eq)]
pub enum Next {
    /// An element in DER.
    Element(Element),
    /// An element that breaks this rule.
    Broken(Rule),
    /// Nothing: the walk has gone over all elements.
    End,
    /// An element with elements in it, for whose end there is no room.
    NoRoom,
    /// The place isn't one that a walk over these bytes comes to.
    NoPlace,
}

/// Goes over the element at a place, and returns it and the place of the next one: in this element if it is
/// constructed, else after it.
///
/// The first `depth` of the ends are where the elements around the place end, the innermost one last. If what is
/// returned isn't an element, the place is the same one, and the ends are as they were.
pub fn next_element(bytes: &[u8], at: Place, ends: &mut [usize]) -> (Next, Place)
    ensures next { IsNext bytes.now at ends.old result.1 ends.new result.0 }
    ensures walk { (elements : List Element) → IsWalked bytes.now (open_ends at ends.old) at.offset elements
        → ComesNext bytes.now at ends.old result.1 ends.new elements result.0 }
{
    if at.depth == 0 && at.offset == bytes.len() {
        return (Next::End, at);
    }
    let Some(end) = end_around(bytes.len(), at, ends) else {
        return (Next::NoPlace, at);
    };
    let header = match front_of(&bytes[at.offset..end]) {
        Front::Element(header) => header,
        Front::Broken(rule) => return (Next::Broken(rule), at),
    };
    if header.tag.is_constructed() && at.depth == ends.len() {
        return (Next::NoRoom, at);
    }
    let element = Element {
        offset: at.offset,
        depth: at.depth,
        tag: header.tag,
        header_len: header.header_len,
        content_len: header.content_len,
    };
    let after = go_past(at, header, ends);
    (Next::Element(element), after)
}

// Where the element around a place ends, or `None` if the place isn't before that end.
fn end_around(len: usize, at: Place, ends: &[usize]) -> Option<usize>
    ensures { MatchOption result (IsInside len at ends.now → ⊥)
        (λ end. (end ≡ innermost len (open_ends at ends.now)) × IsInside len at ends.now) }
{
    if at.depth > ends.len() {
        return None;
    }
    let end = if at.depth == 0 {
        len
    } else {
        ends[at.depth - 1]
    };
    if at.offset < end && end <= len {
        Some(end)
    } else {
        None
    }
}

// Returns the place after the header of an element at a place if it is constructed, else after the element. Ends that
// are reached are left out.
fn go_past(at: Place, header: Header, ends: &mut [usize]) -> Place
    requires fits { at.offset + header.header_len + header.content_len < 2 ^ 64 }
    requires depth { at.depth ≤ length ends.old }
    requires room { is_constructed header.tag ≡ true → at.depth < length ends.old }
    ensures offset { result.offset ≡ next_offset header at.offset }
    ensures ends { open_ends result ends.new ≡ next_ends header at.offset (open_ends at ends.old) }
    ensures size { length ends.new ≡ length ends.old }
{
    let start = at.offset + header.header_len;
    let end = start + header.content_len;
    if !header.tag.is_constructed() {
        return Place {
            offset: end,
            depth: depth_at(&ends[..at.depth], end),
        };
    }
    ends[at.depth] = end;
    Place {
        offset: start,
        depth: depth_at(&ends[..at.depth + 1], start),
    }
}
