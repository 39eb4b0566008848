//! Tags and lengths.
ghost use Rattle.std.specs.Prelude.{◌≡◌, ◌++◌, ◌<◌, ◌^◌, length, IfOk, IfErr};
ghost use Rattle.picky_der_core.specs.Element.{length_octets};
ghost use Rattle.der_show.specs.Headers.{HasHeader, BreaksLength, BreaksHeader, length_rule};

use crate::Rule;
use picky_der_core::Asn1DerError;
use picky_der_core::asn1::Tag;
use picky_der_core::misc::Length;

/// The tag and the length of an element.
#[derive(Debug, Clone, Copy, PartialEq, Eq)]
pub struct Header {
    /// The tag, whose number is at most 30.
    pub tag: Tag,
    /// How many bytes the tag and the length take.
    pub header_len: usize,
    /// How many bytes the content has.
    pub content_len: usize,
}

/// Returns the header of the element at the front of these bytes, which end where the element around it ends.
///
/// The error is the rule that the bytes break: `CutHeader`, `LongTag`, `IndefiniteLength`, `WideLength`, `LongLength`
/// or `PastEnd`.
pub fn header_of(bytes: &[u8]) -> Result<Header, Rule>
    ensures ok { IfOk result (HasHeader bytes.now) }
    ensures err { IfErr result (BreaksHeader bytes.now) }
    ensures small { length bytes.now < 2 ^ 64 }
{
    let len = bytes.len();
    let [first, after @ ..] = bytes else {
        return Err(Rule::CutHeader);
    };
    let tag = Tag::from(*first);
    if tag.number() > Tag::MAX_NUMBER {
        return Err(Rule::LongTag);
    }
    match split_length(after) {
        Ok((content_len, rest)) if content_len <= rest.len() => Ok(Header {
            tag,
            header_len: len - rest.len(),
            content_len,
        }),
        Ok(_) => Err(Rule::PastEnd),
        Err(rule) => Err(rule),
    }
}

// The length at the front of these bytes, and the bytes after it, or the rule that the length breaks.
fn split_length(bytes: &[u8]) -> Result<(usize, &[u8]), Rule>
    ensures ok { IfOk result (λ pair. bytes.now ≡ length_octets pair.0 ++ pair.1.now) }
    ensures err { IfErr result (BreaksLength bytes.now) }
{
    let mut rest = bytes;
    match Length::deserialized(&mut rest) {
        Ok(len) => Ok((len, rest)),
        Err(error) => Err(length_rule(bytes, error)),
    }
}

// The rule that a length breaks if it is refused with this error.
fn length_rule(bytes: &[u8], error: Asn1DerError) -> Rule
    ensures { result ≡ length_rule bytes.now error }
{
    match (bytes, error) {
        ([0x80, ..], _) => Rule::IndefiniteLength,
        (_, Asn1DerError::UnsupportedValue) => Rule::WideLength,
        (_, Asn1DerError::InvalidData) => Rule::LongLength,
        _ => Rule::CutHeader,
    }
}
