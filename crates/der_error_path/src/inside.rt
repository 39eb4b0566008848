//! What may come in the content of an element.
ghost use Rattle.std.specs.Prelude.{◌≡◌, option_map};
ghost use Rattle.der_error_path.specs.Awaited.{awaited};
ghost use Rattle.der_error_path.specs.Inside.{Awaits, AwaitsInNode, content_of, inner_with, first_beginning};

use crate::expected::Expected;
use der_schema::{Alternative, Kind, Node, begins, node_at};
use picky_der_core::asn1::Tag;

// What may come in the content of an element with this tag, if its type is that of the node.
pub(crate) fn inside_of(nodes: &[Node], node: Option<u16>, tag: Tag) -> Expected
    ensures { AwaitsInNode nodes.now tag node (awaited result) }
{
    match node {
        Some(node) => inside(nodes, node, tag),
        None => Expected::Unknown,
    }
}

// What may come in the content of an element with this tag, whose type is that of the node.
fn inside(nodes: &[Node], index: u16, tag: Tag) -> Expected
    ensures { Awaits nodes.now tag index (awaited result) }
{
    let Some(node) = node_at(nodes, index) else {
        return Expected::Unknown;
    };
    if let Some(expected) = content_of(node.kind) {
        return expected;
    }
    let Some(inner) = inner_with(nodes, node.kind, tag) else {
        return Expected::Unknown;
    };
    if inner < index {
        inside(nodes, inner, tag)
    } else {
        Expected::Unknown
    }
}

// What comes in the content of a value of this kind, if the kind says it.
fn content_of(kind: Kind) -> Option<Expected>
    ensures { option_map awaited result ≡ content_of kind }
{
    match kind {
        Kind::Sequence(members) => Some(Expected::Members(members)),
        Kind::SequenceOf(node) => Some(Expected::Items {
            node,
            are_sorted: false,
        }),
        Kind::SetOf(node) => Some(Expected::Items {
            node,
            are_sorted: true,
        }),
        Kind::Wrapped { wrapper, node } => {
            if wrapper.keeps_header() {
                Some(Expected::Value(node))
            } else {
                None
            }
        }
        _ => None,
    }
}

// The node of the type inside that an element with this tag is of.
fn inner_with(nodes: &[Node], kind: Kind, tag: Tag) -> Option<u16>
    ensures { result ≡ inner_with nodes.now tag kind }
{
    match kind {
        Kind::Choice(alternatives) => first_beginning(nodes, alternatives, tag),
        kind => kind.inner(),
    }
}

// The node of the first of these alternatives that can begin with this tag.
fn first_beginning(nodes: &[Node], alternatives: &[Alternative], tag: Tag) -> Option<u16>
    ensures { result ≡ first_beginning nodes.now tag alternatives.now }
{
    let mut left = alternatives;
    while let [first, others @ ..] = left {
        if begins(nodes, first.node, tag) {
            return Some(first.node);
        }
        left = others;
    }
    None
}
