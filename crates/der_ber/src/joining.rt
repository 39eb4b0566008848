//! The content of a string that becomes primitive.
ghost use Rattle.std.specs.Prelude.{◌≡◌, ◌≤◌, ◌∷◌, ℕ, List, [], IfOk, IfErr, MatchOption};
ghost use Rattle.std.specs.List.{concat};
ghost use Rattle.der_ber.specs.Strings.{most_unused};
ghost use Rattle.der_ber.specs.Parts.{contents, is_in, are_in, IsAppended};
ghost use Rattle.der_ber.specs.Joining.{
  IsContentPushed,
  FailsContent,
  AreBitsPushed,
  FailsBits,
  IsSegmentPushed,
  FailsSegment,
};

use crate::parts::{Part, sum};
use crate::{BerError, BerRule};
use picky_der_core::asn1::Tag;

// Appends the content of a string in one part, which has these in it, and whose own index in the input is the position.
// Returns how many bytes the content has.
pub(crate) fn push_content<'a>(
    inside: &[Part<'a>],
    segment: Tag,
    position: usize,
    parts: &mut Vec<Part<'a>>,
) -> Result<usize, BerError>
    ensures ok { IfOk result
        (IsContentPushed segment inside.now parts.old.items parts.new.items) }
    ensures err { IfErr result (FailsContent segment position inside.now) }
{
    if !are_in(inside, segment) {
        return Err(BerError::Broken {
            position,
            rule: BerRule::WrongPart,
        });
    }
    if segment.inner() == 0x03 {
        push_bits(inside, position, parts)
    } else {
        push_octets(inside, parts)
    }
}

// Whether each of these tags is that of a part of a string.
fn are_in(inside: &[Part<'_>], segment: Tag) -> bool
    ensures { result ≡ are_in segment inside.now }
{
    for part in inside {
        if !is_in(part, segment) {
            return false;
        }
    }
    true
}

// Whether a part has no other tag.
fn is_in(part: &Part<'_>, segment: Tag) -> bool
    ensures { result ≡ is_in segment part.now }
{
    match *part {
        Part::Header { tag, .. } => tag.number() == segment.inner() && tag.inner() < 0x40,
        Part::Content(_) | Part::UnusedBits(_) => true,
    }
}

// ---- octets

// Appends the contents of these parts, and returns how many bytes they have.
fn push_octets<'a>(inside: &[Part<'a>], parts: &mut Vec<Part<'a>>) -> Result<usize, BerError>
    ensures ok { IfOk result
        (IsAppended parts.old.items parts.new.items (concat (contents inside.now))) }
    ensures err { IfErr result (λ e. e ≡ BerError.OutOfMemory) }
{
    let mut content_len = 0;
    for part in inside {
        let added = push_octets_of(part, parts)?;
        content_len = sum(content_len, added)?;
    }
    Ok(content_len)
}

// The same of one part.
fn push_octets_of<'a>(part: &Part<'a>, parts: &mut Vec<Part<'a>>) -> Result<usize, BerError>
    ensures ok { IfOk result
        (IsAppended parts.old.items parts.new.items (concat (contents (part.now ∷ [])))) }
    ensures err { IfErr result (λ e. e ≡ BerError.OutOfMemory) }
{
    match *part {
        Part::Content(content) => {
            parts.extend_from_slice(&[Part::Content(content)])?;
            Ok(content.len())
        }
        Part::Header { .. } => Ok(0),
        Part::UnusedBits(_) => Ok(0),
    }
}

// ---- bits

// Appends the content of a BIT STRING, and returns how many bytes it has.
fn push_bits<'a>(
    inside: &[Part<'a>],
    position: usize,
    parts: &mut Vec<Part<'a>>,
) -> Result<usize, BerError>
    ensures ok { IfOk result (AreBitsPushed (contents inside.now) parts.old.items parts.new.items) }
    ensures err { IfErr result (FailsBits position (contents inside.now)) }
{
    let place = parts.len();
    parts.extend_from_slice(&[Part::UnusedBits(0)])?;
    let mut unused = 0;
    let mut len = 0;
    for part in inside {
        let (later, added) = push_segment(part, unused, position, parts)?;
        unused = later;
        len = sum(len, added)?;
    }
    let content_len = sum(1, len)?;
    parts[place] = Part::UnusedBits(unused);
    Ok(content_len)
}

// Appends the bits of a part, where the part before it has so many unused ones. Returns how many are unused now, and
// how many bytes were added.
fn push_segment<'a>(
    part: &Part<'a>,
    unused: u8,
    position: usize,
    parts: &mut Vec<Part<'a>>,
) -> Result<(u8, usize), BerError>
    ensures ok { IfOk result (λ it. IsSegmentPushed (contents (part.now ∷ [])) unused it.0
        parts.old.items parts.new.items it.1) }
    ensures err { IfErr result (FailsSegment position (contents (part.now ∷ [])) unused) }
{
    match *part {
        Part::Content(content) => {
            let broken = BerError::Broken {
                position,
                rule: BerRule::UnusedBits,
            };
            if unused != 0 {
                return Err(broken);
            }
            let Some((later, bits)) = split_unused(content) else {
                return Err(broken);
            };
            parts.extend_from_slice(&[Part::Content(bits)])?;
            Ok((later, bits.len()))
        }
        Part::Header { .. } => Ok((unused, 0)),
        Part::UnusedBits(_) => Ok((unused, 0)),
    }
}

// How many bits are unused in the content of a primitive BIT STRING, and its other bytes.
fn split_unused(content: &[u8]) -> Option<(u8, &[u8])>
    ensures { MatchOption result
        ((unused : ℕ) (bits : List ℕ) → content.now ≡ unused ∷ bits → unused ≤ most_unused bits → ⊥)
        (λ it. (content.now ≡ it.0 ∷ it.1.now) × (it.0 ≤ most_unused it.1.now)) }
{
    let [unused, bits @ ..] = content else {
        return None;
    };
    let unused = *unused;
    if unused > most_unused(bits) {
        return None;
    }
    Some((unused, bits))
}

// How many bits of the last byte may be unused.
fn most_unused(bits: &[u8]) -> u8
    ensures { result ≡ most_unused bits.now }
{
    if bits.is_empty() { 0 } else { 7 }
}
