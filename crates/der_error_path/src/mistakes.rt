//! What is wrong with an element.
ghost use Rattle.std.specs.Prelude.{◌≡◌, IfSome};
ghost use Rattle.der_error_path.specs.Awaited.{are_sorted, awaited};
ghost use Rattle.der_error_path.specs.Steps.{IsElementOf, IsMistake, mistake_of};

use crate::contents::node_can_have;
use crate::expected::{Expected, Part};
use crate::passed::{Passed, missing_in};
use crate::{Mistake, Step};
use der_path::Element;
use der_schema::{DefaultValue, Node, begins};
use picky_der_core::asn1::Tag;

// What is wrong with the element of a step by its tag alone.
pub(crate) fn mistake_of(nodes: &[Node], step: &Step) -> Option<Mistake>
    ensures { result ≡ mistake_of nodes.now step.now }
{
    match step.node {
        Some(node) => {
            if begins(nodes, node, Tag::from(step.identifier)) {
                None
            } else {
                Some(Mistake::OtherTag)
            }
        }
        None => match step.part {
            Part::Unknown => None,
            _ => Some(Mistake::Extra),
        },
    }
}

// What is wrong with the whole element of a step, in which this is expected: in its content, then by itself.
pub(crate) fn mistake_in(
    nodes: &[Node],
    passed: &Passed<'_>,
    step: &Step,
    element: &Element<'_>,
    inner: Expected,
) -> Option<Mistake>
    requires { IsElementOf nodes.now step.now passed.now.rest.now element.now.tag element.now.content.now
        element.now.after.now (awaited inner) }
    ensures { IfSome result (IsMistake nodes.now (awaited passed.now.here) passed.now.rest.now step.now) }
{
    if let Some(name) = missing_in(nodes, inner, element.content) {
        return Some(Mistake::Missing(name));
    }
    if !node_can_have(nodes, step.node, element.content) {
        return Some(Mistake::Content);
    }
    if let Some(value) = passed.here.default(nodes, Tag::from(step.identifier)) {
        if is_content_of(value, element.content) {
            return Some(Mistake::Default);
        }
    }
    match &passed.last {
        Some(last) if are_sorted(passed.here) && is_less(element, last) => Some(Mistake::Order),
        _ => None,
    }
}

// Whether these are items in ascending order.
fn are_sorted(expected: Expected) -> bool
    ensures { result ≡ are_sorted (awaited expected) }
{
    match expected {
        Expected::Items { are_sorted, .. } => are_sorted,
        _ => false,
    }
}

// Whether this is the content of the value, if that is a truth value or a number below 128.
fn is_content_of(value: DefaultValue, content: &[u8]) -> bool {
    match (value, content) {
        (DefaultValue::True, [byte]) => *byte == 0xFF,
        (DefaultValue::False, [byte]) => *byte == 0x00,
        (DefaultValue::Number(number), [byte]) => *byte < 0x80 && i128::from(*byte) == number,
        _ => false,
    }
}

// Whether the encoding of an element is less than that of another one (X.690, 11.6): by the tag, then by the length,
// then by the content.
fn is_less(element: &Element<'_>, other: &Element<'_>) -> bool {
    let (tag, other_tag) = (element.tag.inner(), other.tag.inner());
    if tag != other_tag {
        return tag < other_tag;
    }
    let (len, other_len) = (element.content.len(), other.content.len());
    if len != other_len {
        return len < other_len;
    }
    element.content.cmp(other.content).is_lt()
}
