//! Which contents a type can have.
ghost use Rattle.std.specs.Prelude.{◌≡◌};
ghost use Rattle.der_error_path.specs.Contents.{can_have, content_node, is_truth_value, kind_can_have, node_can_have};

use der_schema::{Kind, Node, node_at};
use der_types::{is_generalized_time, is_subidentifiers, is_utc_time};
use picky_der_core::integer::is_integer;

// Whether an element whose type is that of the node, if it has one, can have this content.
pub(crate) fn node_can_have(nodes: &[Node], node: Option<u16>, content: &[u8]) -> bool
    ensures { result ≡ node_can_have nodes.now node content.now }
{
    match node {
        Some(node) => can_have(nodes, node, content),
        None => true,
    }
}

// Whether a value of a node's type can have this content, as far as its kind says without constraints.
fn can_have(nodes: &[Node], index: u16, content: &[u8]) -> bool
    ensures { result ≡ can_have nodes.now index content.now }
{
    let Some(node) = node_at(nodes, index) else {
        return true;
    };
    let Some(inner) = content_node(node.kind) else {
        return kind_can_have(node.kind, content);
    };
    if inner < index {
        can_have(nodes, inner, content)
    } else {
        true
    }
}

// The node of the type whose contents values of this kind have: of one with another name, tag or constraint.
fn content_node(kind: Kind) -> Option<u16>
    ensures { result ≡ content_node kind }
{
    match kind {
        Kind::Reference(node)
        | Kind::ContentUnder { node, .. }
        | Kind::InRange { node, .. }
        | Kind::AtLeast { node, .. }
        | Kind::AtMost { node, .. }
        | Kind::Outside { node, .. }
        | Kind::Sized { node, .. }
        | Kind::Permitted { node, .. } => Some(node),
        _ => None,
    }
}

// Whether a value of this kind can have this content (X.690, 8.2 to 8.20, 11.7, 11.8). Strings aren't looked at, nor
// parts.
fn kind_can_have(kind: Kind, content: &[u8]) -> bool
    ensures { result ≡ kind_can_have content.now kind }
{
    match kind {
        Kind::Boolean => is_truth_value(content),
        Kind::Integer | Kind::NamedInteger(_) => is_integer(content),
        Kind::Unsigned(_) | Kind::Signed(_) => is_integer(content),
        Kind::Enumerated(_) | Kind::ExtensibleEnumerated(_) => is_integer(content),
        Kind::Null => content.is_empty(),
        Kind::ObjectIdentifier | Kind::RelativeOid => is_subidentifiers(content),
        Kind::GeneralizedTime | Kind::LaterTime => is_generalized_time(content),
        Kind::UtcTime => is_utc_time(content),
        _ => true,
    }
}

// Whether this is the content of a BOOLEAN (X.690, 8.2.2, 11.1).
fn is_truth_value(content: &[u8]) -> bool
    ensures { result ≡ is_truth_value content.now }
{
    match content {
        [byte] => *byte == 0x00 || *byte == 0xFF,
        _ => false,
    }
}
