//! With which tags values of a type begin.
ghost use Rattle.std.specs.Prelude.{◌≡◌, true};
ghost use Rattle.picky_der_core.specs.Shape.{contains, tag_with_number};
ghost use Rattle.picky_der_core.specs.Tag.{is_tag_number, number_of};
ghost use Rattle.picky_der_core.specs.Wrapper.{wrapper_number, wrapper_tag};
ghost use Rattle.der_schema.specs.Begins.{can_begin, kind_begins, one_begins};

use crate::access::node_at;
use crate::{Alternative, Kind, Node};
use picky_der_core::asn1::{Tag, Wrapper};

/// Returns whether a value of the type at this index can begin with this identifier byte (X.690, 8.1.2).
///
/// No value begins with a tag number past 30. A node that doesn't come after one that it names has no values.
#[cycle(begins)]
pub fn begins(nodes: &[Node], index: u16, tag: Tag) -> bool
    ensures { result ≡ can_begin nodes.now index tag }
{
    let Some(node) = node_at(nodes, index) else {
        return false;
    };
    if tag.number() > Tag::MAX_NUMBER {
        return false;
    }
    kind_begins(nodes, index, node.kind, tag)
}

// Whether a value of this kind, whose node has this index, can begin with a tag that isn't one of the long form.
#[cycle(begins)]
fn kind_begins(nodes: &[Node], index: u16, kind: Kind, tag: Tag) -> bool
    requires { is_tag_number (number_of tag) ≡ true }
    ensures { result ≡ kind_begins nodes.now index tag kind }
{
    match kind {
        Kind::AnyElement | Kind::WellFormedElement => true,
        Kind::Choice(alternatives) => one_begins(nodes, alternatives, index, tag),
        Kind::Wrapped { wrapper, .. } => wrapper_begins(wrapper, tag),
        Kind::ContentUnder { tag: own, .. } => tag == Tag::from(own) && !tag.is_constructed(),
        kind => match (kind.own_tag(), kind.inner()) {
            (Some(own), _) => tag == own,
            (None, Some(inner)) => inner < index && begins(nodes, inner, tag),
            (None, None) => false,
        },
    }
}

// Whether a value of one of the alternatives, of those whose nodes come before this index, can begin with this tag.
#[cycle(begins)]
fn one_begins(nodes: &[Node], alternatives: &[Alternative], index: u16, tag: Tag) -> bool
    ensures { result ≡ one_begins nodes.now index tag alternatives.now }
{
    let mut left = alternatives;
    while let [first, others @ ..] = left {
        if first.node < index && begins(nodes, first.node, tag) {
            return true;
        }
        left = others;
    }
    false
}

// Whether an element in the wrapper begins with this tag, which isn't one of the long form.
fn wrapper_begins(wrapper: Wrapper, tag: Tag) -> bool
    requires { is_tag_number (number_of tag) ≡ true }
    ensures { result ≡ contains (tag_with_number (wrapper_number wrapper) (wrapper_tag wrapper)) tag }
{
    match wrapper {
        Wrapper::ImplicitList(own) => tag == Tag::from(own),
        wrapper => wrapper.has_tag_number() && tag == wrapper.tag(),
    }
}
