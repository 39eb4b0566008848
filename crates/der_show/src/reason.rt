//! Why bytes were refused as a value of a type.
ghost use Rattle.std.specs.Prelude.{◌≡◌, IfOk};
ghost use Rattle.der_show.specs.Reasons.{IsReason, refused_at, has_more, misplaced_before, ends_at, offset_before};
ghost use Rattle.der_show.specs.Reasons.{last_before, previous_of, parent_of, encoding_of, is_below, may_be_set};
ghost use Rattle.der_show.specs.Reasons.{is_misplaced};

use crate::{Element, Rule, outline_of};
use picky_der_core::Asn1DerError;
use picky_der_de::DecodeError;
use std::alloc::{AllocError, Global};
use std::fmt;

/// Why bytes were refused, and where.
///
/// It prints as `not DER at 2: the length is indefinite (X.690, 8.1.3.6, 10.1): this is BER`, or as
/// `refused at 402: another element or value than the type has`.
#[derive(Debug, Clone, Copy, PartialEq, Eq)]
pub struct Reason {
    /// The offset of the element at which it was found.
    pub offset: usize,
    /// What was found.
    pub cause: Cause,
}

/// What is wrong with bytes that were refused.
#[derive(Debug, Clone, Copy, PartialEq, Eq)]
pub enum Cause {
    /// They aren't elements in DER: one breaks this rule.
    NotDer(Rule),
    /// They are elements in DER, but reading them as a value of the type gave this error.
    Refused(Asn1DerError),
    /// The same, and the element after which reading stopped is less than the one before it. If they are members of a
    /// SET OF, they are out of order (X.690, 11.6).
    RefusedOrder(Asn1DerError),
    /// They are elements in DER, and reading them as a value stopped after the first of them, though others follow it.
    BytesAfter,
}

/// Returns why bytes were refused with this error. The only error is a failed allocation.
///
/// If the bytes aren't DER, it is the first rule that they break, with the offset of the element that breaks it. If
/// they are, and reading stopped after the first element, though bytes follow it, the offset is that of these bytes.
/// Else it is that of the member of a SET OF that ends there and is out of order, or of the last element that begins
/// before the position at which reading stopped, or 0.
pub fn reason_of(alloc: Global, bytes: &[u8], refusal: DecodeError) -> Result<Reason, AllocError>
    ensures { IfOk result (IsReason bytes.now refusal) }
{
    let outline = outline_of(alloc, bytes)?;
    match outline.complaint {
        Some(complaint) => Ok(Reason {
            offset: complaint.offset,
            cause: Cause::NotDer(complaint.rule),
        }),
        None => Ok(refused_at(bytes, &outline.elements, refusal)),
    }
}

// Why bytes with these elements were refused.
fn refused_at(bytes: &[u8], elements: &[Element], refusal: DecodeError) -> Reason
    ensures { result ≡ refused_at bytes.now elements.now refusal }
{
    let DecodeError { error, position } = refusal;
    if has_more(bytes, elements.first().copied(), position) {
        return Reason {
            offset: position,
            cause: Cause::BytesAfter,
        };
    }
    match misplaced_before(bytes, elements, position) {
        Some(found) => Reason {
            offset: found.offset,
            cause: Cause::RefusedOrder(error),
        },
        None => Reason {
            offset: offset_before(elements, position),
            cause: Cause::Refused(error),
        },
    }
}

// Whether reading stopped after the first element, and there are bytes after it.
fn has_more(bytes: &[u8], first: Option<Element>, position: usize) -> bool
    ensures { result ≡ has_more bytes.now first position }
{
    match first {
        Some(first) => encoding_of(bytes, &first).len() <= position && position < bytes.len(),
        None => false,
    }
}

// The first element that ends at a position, and is less than the member of a SET OF before it.
fn misplaced_before(bytes: &[u8], elements: &[Element], position: usize) -> Option<Element>
    ensures { result ≡ misplaced_before bytes.now elements.now position }
{
    elements.iter().copied().find(|element| ends_at(bytes, element, position)
        && is_misplaced(bytes, elements, element))
}

fn ends_at(bytes: &[u8], element: &Element, position: usize) -> bool
    ensures { result ≡ ends_at bytes.now element.now position }
{
    element.offset <= position && position - element.offset == encoding_of(bytes, element).len()
}

// The offset of the last element that begins before a position, or 0.
fn offset_before(elements: &[Element], position: usize) -> usize
    ensures { result ≡ offset_before elements.now position }
{
    match last_before(elements, position) {
        Some(found) => found.offset,
        None => 0,
    }
}

// The last element that begins before a position.
fn last_before(elements: &[Element], position: usize) -> Option<Element>
    ensures { result ≡ last_before elements.now position }
{
    elements
        .iter()
        .rev()
        .copied()
        .find(|element| element.offset < position)
}

// The last element before this one at its depth or above it: the member before it, or the element around both.
fn previous_of(elements: &[Element], found: &Element) -> Option<Element>
    ensures { result ≡ previous_of elements.now found.now }
{
    elements.iter().rev().copied().find(|element| element.offset < found.offset
        && element.depth <= found.depth)
}

// The element around this one.
fn parent_of(elements: &[Element], found: &Element) -> Option<Element>
    ensures { result ≡ parent_of elements.now found.now }
{
    elements.iter().rev().copied().find(|element| element.offset < found.offset
        && element.depth < found.depth)
}

// Whether the element may be a member of a SET OF and is less than the member before it.
fn is_misplaced(bytes: &[u8], elements: &[Element], found: &Element) -> bool
    ensures { result ≡ is_misplaced bytes.now elements.now found.now }
{
    may_be_set(parent_of(elements, found)) && is_below(bytes, found, previous_of(elements, found))
}

// Whether the element may be a SET OF: its tag isn't a universal one.
fn may_be_set(parent: Option<Element>) -> bool
    ensures { result ≡ may_be_set parent }
{
    match parent {
        Some(parent) => parent.tag.inner() / 64 != 0,
        None => false,
    }
}

// Whether it is a member like the previous one, and less.
fn is_below(bytes: &[u8], found: &Element, previous: Option<Element>) -> bool
    ensures { result ≡ is_below bytes.now found.now previous }
{
    match previous {
        Some(previous) => {
            previous.depth == found.depth
                && encoding_of(bytes, found)
                    .cmp(encoding_of(bytes, &previous))
                    .is_lt()
        }
        None => false,
    }
}

// The bytes of an element.
fn encoding_of<'a>(bytes: &'a [u8], element: &Element) -> &'a [u8]
    ensures { result.now ≡ encoding_of bytes.now element.now }
{
    let start = element.offset.min(bytes.len());
    let rest = &bytes[start..];
    let size = element.header_len.saturating_add(element.content_len);
    &rest[..size.min(rest.len())]
}

// What is wrong with bytes that are DER and were refused with this error, or `None` for errors that aren't about the
// bytes.
fn words_of(error: Asn1DerError) -> Option<&'static str> {
    match error {
        Asn1DerError::InvalidData => Some("another element or value than the type has"),
        Asn1DerError::TruncatedData => Some("a member is missing after it"),
        Asn1DerError::UnsupportedValue => Some("a value that isn't supported"),
        _ => None,
    }
}

impl fmt::Display for Cause {
    fn fmt<W: fmt::Write>(&self, f: &mut fmt::Formatter<W>) -> fmt::Result {
        match *self {
            Cause::NotDer(rule) if rule.is_of_der_alone() => write!(f, "{rule}: this is BER"),
            Cause::NotDer(rule) => write!(f, "{rule}"),
            Cause::Refused(error) => write_error(f, error),
            Cause::BytesAfter => f.write_str("more bytes follow the element"),
            Cause::RefusedOrder(error) => {
                write_error(f, error)?;
                write!(
                    f,
                    "; if this is a SET OF, its members are out of order (X.690, 11.6)"
                )
            }
        }
    }
}

// Writes what is wrong with bytes that are DER.
fn write_error<W: fmt::Write>(f: &mut fmt::Formatter<W>, error: Asn1DerError) -> fmt::Result {
    match words_of(error) {
        Some(words) => f.write_str(words),
        None => write!(f, "{error}"),
    }
}

impl fmt::Display for Reason {
    fn fmt<W: fmt::Write>(&self, f: &mut fmt::Formatter<W>) -> fmt::Result {
        let offset = self.offset;
        let cause = self.cause;
        match cause {
            Cause::NotDer(_) => write!(f, "not DER at {offset}: {cause}"),
            _ => write!(f, "refused at {offset}: {cause}"),
        }
    }
}
