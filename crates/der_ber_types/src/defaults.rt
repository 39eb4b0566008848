//! Defaults that are written out, which are left out in DER (X.690, 11.5).
ghost use Rattle.std.specs.Prelude.{◌≡◌, ◌↔◌, IsTrue};
ghost use Rattle.picky_der_core.specs.Integer.{integer_content};
ghost use Rattle.der_ber_types.specs.Values.{IsContentOf, IsValue, IsDefault};

use crate::inside::{Inside, inside_of};
use der_path::first_element;
use der_schema::{DefaultValue, Member, Node, Presence};
use picky_der_core::Int;
use picky_der_core::integer::IntContent;

// Whether an element in DER has the value that the member has where it is absent.
pub(crate) fn is_default(nodes: &[Node], member: &Member, element: &[u8]) -> bool
    ensures { IsTrue result ↔ IsDefault nodes.now member.now element.now }
{
    match member.presence {
        Presence::Default(value) | Presence::DefaultOf(value) => {
            is_value(nodes, member.node, value, element)
        }
        Presence::Required | Presence::Optional => false,
    }
}

// Whether an element of a node's type in DER has this value.
fn is_value(nodes: &[Node], index: u16, value: DefaultValue, element: &[u8]) -> bool
    ensures { IsTrue result ↔ IsValue nodes.now value index element.now }
{
    let Some(first) = first_element(element) else {
        return false;
    };
    if !first.after.is_empty() {
        return false;
    }
    let Some(inside) = inside_of(nodes, index, first.tag) else {
        return false;
    };
    match inside {
        Inside::One(inner) => is_value(nodes, inner, value, first.content),
        _ => is_content_of(inside, value, first.content),
    }
}

// Whether it is the content of an element with this in it and this value.
fn is_content_of(inside: Inside, value: DefaultValue, content: &[u8]) -> bool
    ensures { IsTrue result ↔ IsContentOf inside value content.now }
{
    match inside {
        Inside::Boolean => is_truth_of(value, content),
        Inside::Number => is_number_of(value, content),
        _ => false,
    }
}

fn is_truth_of(value: DefaultValue, content: &[u8]) -> bool
    ensures { IsTrue result ↔ IsContentOf Inside.Boolean value content.now }
{
    match value {
        DefaultValue::True => content == [0xFF].as_slice(),
        DefaultValue::False => content == [0x00].as_slice(),
        DefaultValue::Number(_) => false,
    }
}

fn is_number_of(value: DefaultValue, content: &[u8]) -> bool
    ensures { IsTrue result ↔ IsContentOf Inside.Number value content.now }
{
    match value {
        DefaultValue::Number(number) => is_content_of_number(number, content),
        DefaultValue::True | DefaultValue::False => false,
    }
}

// Whether it is the content of this number in the fewest bytes (8.3.2).
fn is_content_of_number(number: i128, content: &[u8]) -> bool
    ensures { IsTrue result ↔ content.now ≡ integer_content number }
{
    let own = IntContent::of(number.into_bits());
    own.as_slice() == content
}
