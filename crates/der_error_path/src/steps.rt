//! The steps of a path, by the names of a schema.
ghost use Rattle.std.specs.Prelude.{◌≡◌, ◌∷◌, ◌⊎◌, ℕ, List, IfOk, IfErr, IsSomeAnd, unwrap_or};
ghost use Rattle.der_path.specs.Paths.{IsPath};
ghost use Rattle.der_error_path.specs.Awaited.{Awaited, awaited};
ghost use Rattle.der_error_path.specs.Steps.{AreSteps, IsElementOf, IsMistake, IsStep};

use crate::Mistake;
use crate::expected::{Expected, Part};
use crate::inside::inside_of;
use crate::mistakes::{mistake_in, mistake_of};
use crate::passed::{Passed, pass};
use der_path::{Element, first_element};
use der_schema::{Node, Schema};
use picky_der_core::asn1::Tag;
use std::alloc::{AllocError, Global};

/// A step of a path: an element in the one before it.
#[derive(Debug, Clone, Copy, PartialEq, Eq)]
pub struct Step {
    /// How many elements are before it in the same content.
    pub index: usize,
    /// What it is there.
    pub part: Part,
    /// The index of its type's node, if the schema has one for it.
    pub node: Option<u16>,
    /// Its identifier byte (X.690, 8.1.2).
    pub identifier: u8,
}

// The steps of a path by numbers, up to the one with the mistake, for an error at this position. The mistake is `None`
// if nothing is known to be wrong, and is then in the content of the last element.
pub(crate) fn steps_of(
    alloc: Global,
    schema: Schema,
    bytes: &[u8],
    numbers: &[usize],
    position: usize,
) -> Result<(Vec<Step>, Option<Mistake>), AllocError>
    requires { (place : ℕ) × IsPath bytes.now place numbers.now }
    ensures { IfOk result (λ pair. AreSteps schema.nodes.now (Awaited.value schema.root) bytes.now numbers.now
        pair.0.items (unwrap_or pair.1 Mistake.Content)) }
{
    let nodes = schema.nodes;
    let mut steps = Vec::new(alloc);
    let mut found = None;
    let mut expected = Expected::Value(schema.root);
    let mut around = bytes;
    let mut end = bytes.len();
    let mut left = numbers;
    while let [index, others @ ..] = left {
        let passed = pass(nodes, expected, around, *index);
        let [identifier, ..] = passed.rest else {
            return Ok((steps, Some(Mistake::NoElement)));
        };
        let step = step_to(nodes, passed.here, *index, *identifier);
        steps.push(step)?;
        let (element, inner) = match element_of(nodes, &step, passed.rest) {
            Ok(within) => within,
            Err(mistake) => return Ok((steps, Some(mistake))),
        };
        end = end.saturating_sub(element.after.len());
        if end == position {
            found = found_in(nodes, &passed, &step, &element, inner, steps.len(), found);
        }
        expected = inner;
        around = element.content;
        left = others;
    }
    match found {
        Some((depth, mistake)) => {
            steps.truncate(depth);
            Ok((steps, Some(mistake)))
        }
        None => Ok((steps, None)),
    }
}

// The step to an element that begins with this byte where this is expected, after so many others.
fn step_to(nodes: &[Node], here: Expected, index: usize, identifier: u8) -> Step
    ensures step { (rest : List ℕ) → IsStep nodes.now (awaited here) (identifier ∷ rest) index result }
    ensures identifier { result.identifier ≡ identifier }
{
    let (part, node) = here.part(nodes, Tag::from(identifier));
    Step {
        index,
        part,
        node,
        identifier,
    }
}

// The element of a step at the front of these bytes and what is expected in it, or what is wrong with it whatever its
// content is.
fn element_of<'a>(
    nodes: &[Node],
    step: &Step,
    rest: &'a [u8],
) -> Result<(Element<'a>, Expected), Mistake>
    ensures ok { IfOk result (λ pair. IsElementOf nodes.now step.now rest.now pair.0.tag pair.0.content.now
        pair.0.after.now (awaited pair.1)) }
    ensures err { IfErr result (λ mistake. (here : Awaited) → IsMistake nodes.now here rest.now step.now mistake) }
{
    if let Some(mistake) = mistake_of(nodes, step) {
        return Err(mistake);
    }
    let Some(element) = first_element(rest) else {
        return Err(Mistake::NoElement);
    };
    let inner = inside_of(nodes, step.node, element.tag);
    Ok((element, inner))
}

// What is wrong with the element of a step at this depth, or else what was found so far.
fn found_in(
    nodes: &[Node],
    passed: &Passed<'_>,
    step: &Step,
    element: &Element<'_>,
    inner: Expected,
    depth: usize,
    found: Option<(usize, Mistake)>,
) -> Option<(usize, Mistake)>
    requires { IsElementOf nodes.now step.now passed.now.rest.now element.now.tag element.now.content.now
        element.now.after.now (awaited inner) }
    ensures { (result ≡ found) ⊎ IsSomeAnd result (λ pair. (pair.0 ≡ depth)
        × IsMistake nodes.now (awaited passed.now.here) passed.now.rest.now step.now pair.1) }
{
    match mistake_in(nodes, passed, step, element, inner) {
        Some(mistake) => Some((depth, mistake)),
        None => found,
    }
}
