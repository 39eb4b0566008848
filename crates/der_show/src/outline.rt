//! Goes from element to element.
ghost use Rattle.std.specs.Prelude.{◌≡◌, ◌+◌, ◌^◌, ◌<◌, IfOk, OnOk, MatchOption};
ghost use Rattle.der_show.specs.Ends.{next_offset, next_ends};
ghost use Rattle.der_show.specs.Outlines.{IsFront, IsOutline, AreElements, IsComplaint};

use crate::ends::Ends;
use crate::{Element, Header, Rule, content_rule, form_rule, header_of};
use std::alloc::{AllocError, Global};

/// A rule that bytes break, and where.
#[derive(Debug, Clone, Copy, PartialEq, Eq)]
pub struct Complaint {
    /// The index of the tag of the element that breaks the rule.
    pub offset: usize,
    /// The rule.
    pub rule: Rule,
}

/// The elements of bytes.
#[derive(Debug, Drop)]
pub struct Outline {
    /// Each element, before the elements in it, up to the first one that breaks a rule.
    pub elements: Vec<Element>,
    /// The rule that the first of these elements breaks, or `None`.
    pub complaint: Option<Complaint>,
}

/// Goes over the elements of bytes, at any depth, up to the first one that breaks a rule. The only error is a failed
/// allocation.
pub fn outline_of(alloc: Global, bytes: &[u8]) -> Result<Outline, AllocError>
    ensures { IfOk result (IsOutline bytes.now) }
{
    let len = bytes.len();
    let mut elements = Vec::new(alloc);
    let mut ends = Ends::new(alloc);
    let mut offset = 0;
    while offset < len {
        let end = ends.innermost(len);
        let header = match front_of(&bytes[offset..end]) {
            Front::Element(header) => header,
            Front::Broken(rule) => {
                return Ok(Outline {
                    elements,
                    complaint: Some(Complaint { offset, rule }),
                });
            }
        };
        elements.push(Element {
            offset,
            depth: ends.depth(),
            tag: header.tag,
            header_len: header.header_len,
            content_len: header.content_len,
        })?;
        offset = go_on(&mut ends, offset, header)?;
    }
    Ok(Outline {
        elements,
        complaint: None,
    })
}

/// Returns the first rule that the elements of bytes break, at any depth, or `None` if the bytes are elements in DER
/// and nothing else. The only error is a failed allocation.
pub fn complaint_of(alloc: Global, bytes: &[u8]) -> Result<Option<Complaint>, AllocError>
    ensures { IfOk result (λ it. MatchOption it (AreElements bytes.now) (IsComplaint bytes.now)) }
{
    let len = bytes.len();
    let mut ends = Ends::new(alloc);
    let mut offset = 0;
    while offset < len {
        let end = ends.innermost(len);
        match front_of(&bytes[offset..end]) {
            Front::Element(header) => offset = go_on(&mut ends, offset, header)?,
            Front::Broken(rule) => return Ok(Some(Complaint { offset, rule })),
        }
    }
    Ok(None)
}

/// What is at the front of bytes.
#[derive(Debug, Clone, Copy, PartialEq, Eq)]
pub enum Front {
    /// An element whose tag, length and content are in DER, with this header. The elements in it aren't looked at.
    Element(Header),
    /// An element that breaks this rule.
    Broken(Rule),
}

/// Returns what is at the front of bytes, which end where the element around it ends.
pub fn front_of(bytes: &[u8]) -> Front
    ensures { IsFront bytes.now result }
{
    let header = match header_of(bytes) {
        Ok(header) => header,
        Err(rule) => return Front::Broken(rule),
    };
    if let Some(rule) = form_rule(header.tag) {
        return Front::Broken(rule);
    }
    let content = &bytes[header.header_len..header.header_len + header.content_len];
    match content_rule(header.tag, content) {
        Some(rule) => Front::Broken(rule),
        None => Front::Element(header),
    }
}

// Returns the offset of the next element: in this element if it is constructed, else after it. Elements that end there
// are closed.
pub(crate) fn go_on(ends: &mut Ends, offset: usize, header: Header) -> Result<usize, AllocError>
    requires { offset + header.header_len + header.content_len < 2 ^ 64 }
    ensures offset { IfOk result (λ next. next ≡ next_offset header offset) }
    ensures ends { OnOk result (ends.new ≡ next_ends header offset ends.old) }
{
    let start = offset + header.header_len;
    let end = start + header.content_len;
    if !header.tag.is_constructed() {
        ends.close(end);
        return Ok(end);
    }
    ends.open(end)?;
    ends.close(start);
    Ok(start)
}
