//! What is in an element of a type.
ghost use Rattle.std.specs.Prelude.{◌≡◌, IfSome, IfNone};
ghost use Rattle.der_ber_types.specs.Kinds.{tag_in_der, in_parts};
ghost use Rattle.der_ber_types.specs.Inside.{
  HasInside,
  HasTag,
  IsInside,
  IsInsideOne,
  IsInsideOwn,
  IsNoInside,
  IsNoInsideOwn,
  HasNoneTag,
};

use crate::kinds::{inside_here, inside_same, same_content, same_type};
use der_schema::{Alternative, Kind, Member, Node, node_at};
use picky_der_core::asn1::Tag;

// What is in an element.
#[derive(Clone, Copy)]
pub(crate) enum Inside {
    // A content that stays as it is.
    Same,
    // The content of an INTEGER or an ENUMERATED, which stays.
    Number,
    // TRUE or FALSE.
    Boolean,
    // The content of a string whose parts are octet strings, in one.
    Octets,
    // The parts of such a string.
    Parts,
    // The content of a BIT STRING, in one.
    Bits,
    // The parts of a BIT STRING.
    BitParts,
    // The members of a SEQUENCE.
    Members(&'static [Member]),
    // The members of a SET, in any order.
    AnyOrder(&'static [Member]),
    // Elements of this node's type, one after another.
    Each(u16),
    // The same in any order.
    Set(u16),
    // One element of this node's type.
    One(u16),
}

impl Inside {
    // The tag in DER of an element with this tag and this in it: a string is primitive (X.690, 10.2).
    pub(crate) fn tag_in_der(self, tag: Tag) -> Tag
        ensures { result ≡ tag_in_der self tag }
    {
        match self {
            Inside::Parts | Inside::BitParts => Tag::from(tag.inner().saturating_sub(0x20)),
            _ => tag,
        }
    }

    // What is in a string in parts, whose content in one part is this.
    fn in_parts(self) -> Option<Inside>
        ensures { result ≡ in_parts self }
    {
        match self {
            Inside::Octets => Some(Inside::Parts),
            Inside::Bits => Some(Inside::BitParts),
            _ => None,
        }
    }
}

// What is in an element with this tag that is of a node's type, or `None` if none of it has the tag. A node that
// doesn't come after one that it names has no values.
#[cycle(inside)]
pub(crate) fn inside_of(nodes: &[Node], index: u16, tag: Tag) -> Option<Inside>
    ensures some { IfSome result (IsInside nodes.now index tag) }
    ensures none { IfNone result (HasTag nodes.now index tag → ⊥) }
{
    let Some(node) = node_at(nodes, index) else {
        return None;
    };
    let kind = node.kind;
    match kind {
        Kind::Choice(alternatives) => inside_of_one(nodes, alternatives, index, tag),
        Kind::AnyElement | Kind::WellFormedElement => Some(Inside::Same),
        _ => match same_type(kind) {
            Some(inner) => {
                if inner < index {
                    inside_of(nodes, inner, tag)
                } else {
                    None
                }
            }
            None => with_own_tag(nodes, index, kind.own_tag()?, tag),
        },
    }
}

// The same of a type whose elements have a tag of their own. A string in parts has the constructed one of the same
// number (X.690, 8.6.4, 8.7.3.2, 8.14.4).
fn with_own_tag(nodes: &[Node], index: u16, own: Tag, tag: Tag) -> Option<Inside>
    ensures some { IfSome result (IsInsideOwn nodes.now index own tag) }
    ensures none { IfNone result (IsNoInsideOwn nodes.now index own tag) }
{
    if own == tag {
        return content_of(nodes, index);
    }
    if !tag.is_constructed() || tag.inner().checked_sub(0x20) != Some(own.inner()) {
        return None;
    }
    content_of(nodes, index)?.in_parts()
}

// The same of the first of the alternatives that has the tag, of those whose nodes come before this index.
#[cycle(inside)]
fn inside_of_one(
    nodes: &[Node],
    alternatives: &[Alternative],
    index: u16,
    tag: Tag,
) -> Option<Inside>
    ensures some { IfSome result (IsInsideOne nodes.now index alternatives.now tag) }
    ensures none { IfNone result (HasNoneTag nodes.now index alternatives.now tag) }
{
    for alternative in alternatives {
        if alternative.node < index {
            if let Some(inside) = inside_of(nodes, alternative.node, tag) {
                return Some(inside);
            }
        }
    }
    None
}

// What is in an element of a node's type, whatever tag it has.
fn content_of(nodes: &[Node], index: u16) -> Option<Inside>
    ensures some { IfSome result (HasInside nodes.now index) }
    ensures none { IfNone result (IsNoInside nodes.now index) }
{
    let Some(node) = node_at(nodes, index) else {
        return None;
    };
    match same_content(node.kind) {
        Some(inner) => {
            if inner < index {
                Some(inside_same(node.kind, content_of(nodes, inner)?))
            } else {
                None
            }
        }
        None => Some(inside_here(node.kind)),
    }
}
