//! The order of the members of a SET (X.690, 8.11.3, 10.3).
ghost use Rattle.std.specs.Prelude.{IfOk, MatchOption};
ghost use Rattle.der_ber_types.specs.Reordered.{AreReordered, IsFirst, HasNone};
ghost use Rattle.der_ber_types.specs.Pushed.{IsMoved};

use crate::contents::copied;
use crate::inside::inside_of;
use der_path::first_element;
use der_schema::{Member, Node};
use std::alloc::{AllocError, Global};

// The elements of a SET in the order of its members, and those of none after them. The element of a member is the first
// one with a tag of its type.
//
// The time is linear in the number of members times the number of bytes.
pub(crate) fn in_member_order(
    alloc: Global,
    nodes: &[Node],
    members: &[Member],
    bytes: &[u8],
) -> Result<Vec<u8>, AllocError>
    ensures { IfOk result (λ ordered. AreReordered nodes.now members.now bytes.now ordered.items) }
{
    let mut ordered = Vec::new(alloc);
    let mut rest = copied(alloc, bytes)?;
    for member in members {
        rest = without_member(alloc, nodes, member, rest, &mut ordered)?;
    }
    ordered.extend_from_slice(&rest)?;
    Ok(ordered)
}

// Appends the element of a member, if there is one, and returns the bytes without it.
fn without_member(
    alloc: Global,
    nodes: &[Node],
    member: &Member,
    bytes: Vec<u8>,
    ordered: &mut Vec<u8>,
) -> Result<Vec<u8>, AllocError>
    ensures { IfOk result (λ rest. IsMoved nodes.now member.now bytes.items rest.items
        ordered.old.items ordered.new.items) }
{
    let Some(found) = first_of(nodes, member.node, &bytes) else {
        return Ok(bytes);
    };
    ordered.extend_from_slice(found.element)?;
    let mut rest = copied(alloc, found.before)?;
    rest.extend_from_slice(found.after)?;
    Ok(rest)
}

// An element with the bytes before and after it.
#[derive(Clone, Copy)]
pub(crate) struct Found<'a> {
    pub(crate) before: &'a [u8],
    pub(crate) element: &'a [u8],
    pub(crate) after: &'a [u8],
}

// The first element that has a tag of the node's type.
fn first_of<'a>(nodes: &[Node], index: u16, bytes: &'a [u8]) -> Option<Found<'a>>
    ensures { MatchOption result (HasNone nodes.now index bytes.now)
        (λ it. IsFirst nodes.now index bytes.now it.before.now it.element.now it.after.now) }
{
    let mut rest = bytes;
    while let Some(element) = first_element(rest) {
        if inside_of(nodes, index, element.tag).is_some() {
            let (before, others) = bytes.split_at(bytes.len() - rest.len());
            let (element, after) = others.split_at(rest.len() - element.after.len());
            return Some(Found {
                before,
                element,
                after,
            });
        }
        rest = element.after;
    }
    None
}
