//! What a kind of types says of its elements.
ghost use Rattle.std.specs.Prelude.{◌≡◌};
ghost use Rattle.der_schema.specs.Tags.{same_type, same_content};
ghost use Rattle.der_ber_types.specs.Kinds.{in_any_order, inside_same, inside_here};

use crate::inside::Inside;
use der_schema::Kind;
use picky_der_core::asn1::Wrapper;

// The node of the type whose elements a kind has: it is a name of it, or some of its values.
pub(crate) fn same_type(kind: Kind) -> Option<u16>
    ensures { result ≡ same_type kind }
{
    match kind {
        Kind::Reference(node)
        | Kind::InRange { node, .. }
        | Kind::AtLeast { node, .. }
        | Kind::AtMost { node, .. }
        | Kind::Outside { node, .. }
        | Kind::Sized { node, .. }
        | Kind::Permitted { node, .. } => Some(node),
        _ => None,
    }
}

// The same, or the node of the type that is in a tag in place of its own.
pub(crate) fn same_content(kind: Kind) -> Option<u16>
    ensures { result ≡ same_content kind }
{
    match kind {
        Kind::Wrapped {
            wrapper: Wrapper::Implicit(_) | Wrapper::ImplicitList(_),
            node,
        } => Some(node),
        Kind::ContentUnder { node, .. } => Some(node),
        kind => same_type(kind),
    }
}

// What is in an element of a kind with the content of another, which is this. Members under the tag of a SET come in
// any order (X.690, 8.11.3).
pub(crate) fn inside_same(kind: Kind, inside: Inside) -> Inside
    ensures { result ≡ inside_same kind inside }
{
    match kind {
        Kind::Wrapped {
            wrapper: Wrapper::ImplicitList(tag),
            ..
        } => {
            if tag == 0x31 {
                in_any_order(inside)
            } else {
                inside
            }
        }
        _ => inside,
    }
}

fn in_any_order(inside: Inside) -> Inside
    ensures { result ≡ in_any_order inside }
{
    match inside {
        Inside::Members(members) => Inside::AnyOrder(members),
        _ => inside,
    }
}

// What is in an element of a kind that has a content of its own.
pub(crate) fn inside_here(kind: Kind) -> Inside
    ensures { result ≡ inside_here kind }
{
    match kind {
        Kind::Boolean => Inside::Boolean,
        Kind::Integer
        | Kind::NamedInteger(_)
        | Kind::Unsigned(_)
        | Kind::Signed(_)
        | Kind::Enumerated(_)
        | Kind::ExtensibleEnumerated(_) => Inside::Number,
        Kind::BitString | Kind::NamedBits(_) => Inside::Bits,
        Kind::OctetString
        | Kind::Utf8String
        | Kind::Character
        | Kind::RestrictedString(_)
        | Kind::GeneralizedTime
        | Kind::LaterTime
        | Kind::UtcTime => Inside::Octets,
        Kind::Sequence(members) => Inside::Members(members),
        Kind::SequenceOf(node) => Inside::Each(node),
        Kind::SetOf(node) => Inside::Set(node),
        Kind::Wrapped {
            wrapper: Wrapper::Explicit(_) | Wrapper::Application(_),
            node,
        } => Inside::One(node),
        _ => Inside::Same,
    }
}
