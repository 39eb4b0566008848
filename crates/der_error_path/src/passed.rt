//! Elements that were passed in a content.
ghost use Rattle.std.specs.Prelude.{◌≡◌, ◌≤◌, ◌⊎◌, IfSome};
ghost use Rattle.der_path.specs.Elements.{BeginsWithNone};
ghost use Rattle.der_error_path.specs.Awaited.{awaited};
ghost use Rattle.der_error_path.specs.Passed.{ArePassedAs, IsMissing};

use crate::expected::Expected;
use der_path::{Element, first_element};
use der_schema::{Member, Node};

// Where a content is read on.
#[derive(Clone, Copy)]
pub(crate) struct Passed<'a> {
    // How many elements are before.
    pub(crate) count: usize,
    // The last of them.
    pub(crate) last: Option<Element<'a>>,
    // What is expected after them.
    pub(crate) here: Expected,
    // The bytes after them.
    pub(crate) rest: &'a [u8],
}

// Passes elements at the front of a content in which this is expected: at most so many, and all that can be read if
// they are fewer.
pub(crate) fn pass<'a>(
    nodes: &[Node],
    expected: Expected,
    content: &'a [u8],
    most: usize,
) -> Passed<'a>
    ensures passed { ArePassedAs nodes.now (awaited expected) content.now result.count (awaited result.here)
        result.rest.now }
    ensures most { result.count ≤ most }
    ensures all { (result.count ≡ most) ⊎ BeginsWithNone result.rest.now }
{
    let mut count = 0;
    let mut last = None;
    let mut here = expected;
    let mut rest = content;
    while count < most {
        let Some(element) = first_element(rest) else {
            break;
        };
        count += 1;
        here = here.after(nodes, element.tag);
        rest = element.after;
        last = Some(element);
    }
    Passed {
        count,
        last,
        here,
        rest,
    }
}

// The first member that is missing in a content in which these are expected.
pub(crate) fn missing_in(nodes: &[Node], expected: Expected, content: &[u8]) -> Option<&'static str>
    ensures { IfSome result (λ name. (m : Member) × IsMissing nodes.now (awaited expected) content.now m
        × (name ≡ m.name)) }
{
    let passed = pass(nodes, expected, content, content.len());
    if passed.rest.is_empty() {
        passed.here.required()
    } else {
        None
    }
}
