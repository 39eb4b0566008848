//! The steps of a listing.
ghost use Rattle.std.specs.Prelude.{◌≡◌, IfOk, OnOk};
ghost use Rattle.der_show.specs.Steps.{IsStep, CanMove, offset_after, ends_after, is_element, continues};

use crate::ends::Ends;
use crate::opening::opening_of;
use crate::outline::{Front, front_of, go_on};
use crate::{Header, Rule, ShowOptions, header_of};
use std::alloc::{AllocError, Global};

// What is next in a listing.
#[derive(Debug, Clone, Copy)]
pub(crate) enum Step {
    // An element in DER. If it is listed together with an element in it, that one is after so many bytes of its
    // content.
    Element(Header, Option<usize>),
    // An element that breaks this rule, after which the listing goes on.
    Broken(Rule, Header),
    // No header, because of this rule. The listing goes on after the element around it.
    Skipped(Rule),
    // An element that breaks this rule, where the listing ends.
    Stopped(Rule),
}

impl Step {
    // Whether it is an element in DER.
    pub(crate) fn is_element(&self) -> bool
        ensures { result ≡ is_element self.now }
    {
        matches!(self, Step::Element(..))
    }

    // Whether the listing goes on after it.
    pub(crate) fn continues(&self) -> bool
        ensures { result ≡ continues self.now }
    {
        !matches!(self, Step::Stopped(_))
    }
}

// Returns what is next where these bytes are ahead, at this depth. They end where the element around them ends.
pub(crate) fn step_at(
    alloc: Global,
    options: &ShowOptions,
    depth: usize,
    ahead: &[u8],
) -> Result<Step, AllocError>
    ensures { IfOk result (IsStep options.now depth ahead.now) }
{
    let rule = match front_of(ahead) {
        Front::Element(header) => {
            let content = &ahead[header.header_len..header.header_len + header.content_len];
            let opening = opening_of(alloc, options, depth, header.tag, content)?;
            return Ok(Step::Element(header, opening));
        }
        Front::Broken(rule) => rule,
    };
    if !options.keeps_going {
        return Ok(Step::Stopped(rule));
    }
    match header_of(ahead) {
        Ok(header) => Ok(Step::Broken(rule, header)),
        Err(rule) => Ok(Step::Skipped(rule)),
    }
}

// Returns the offset that a step comes to. `end` is where the element around it ends. Elements that end at the offset
// are closed.
pub(crate) fn move_past(
    ends: &mut Ends,
    offset: usize,
    end: usize,
    step: Step,
) -> Result<usize, AllocError>
    requires { CanMove offset step }
    ensures offset { IfOk result (λ next. next ≡ offset_after end offset step) }
    ensures ends { OnOk result (ends.new ≡ ends_after end offset ends.old step) }
{
    match step {
        Step::Element(header, None) | Step::Broken(_, header) => go_on(ends, offset, header),
        Step::Element(header, Some(skipped)) => {
            let start = offset + header.header_len;
            let next = start + skipped;
            ends.open(start + header.content_len)?;
            ends.close(next);
            Ok(next)
        }
        Step::Skipped(_) | Step::Stopped(_) => {
            ends.close(end);
            Ok(end)
        }
    }
}
