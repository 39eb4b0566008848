//! Reads elements of any length form, at every depth.
ghost use Rattle.std.specs.Prelude.{◌≡◌, ◌+◌, ◌-◌, ◌^◌, ◌<◌, length, IfOk, IfErr};
ghost use Rattle.der_ber.specs.Strings.{segment_at, segment_of};
ghost use Rattle.der_ber.specs.Reading.{IsElementRead, IsFrontRead, AreRead, IsInsideRead, FailsAt, FailsWithin};

use crate::front::{Front, Until, front_of};
use crate::joining::push_content;
use crate::parts::{Part, element_size, sum};
use crate::strings::Strings;
use crate::{BerError, BerRule};
use picky_der_core::asn1::Tag;

// Reads elements up to their end, with at most `room` levels of constructed ones, and appends their parts. Returns how
// many bytes they have in DER, and the bytes after the end. `offset` is the index of the first byte in the input.
#[cycle(reading)]
pub(crate) fn read_elements<'a>(
    bytes: &'a [u8],
    until: Until,
    offset: usize,
    room: usize,
    strings: Strings,
    parts: &mut Vec<Part<'a>>,
) -> Result<(usize, &'a [u8]), BerError>
    requires { offset + length bytes.now < 2 ^ 64 }
    ensures ok { IfOk result
        (λ it. AreRead until strings room bytes.now parts.old.items parts.new.items it.0 it.1.now) }
    ensures err { IfErr result (FailsWithin until strings room offset bytes.now) }
{
    let mut rest = bytes;
    let mut size = 0;
    loop {
        if let Some(after) = until.split(rest) {
            return Ok((size, after));
        }
        let place = offset + (bytes.len() - rest.len());
        let (added, after) = read_element(rest, place, room, strings, parts)?;
        size = sum(size, added)?;
        rest = after;
    }
}

// Reads the element at the front of bytes in the same way.
#[cycle(reading)]
fn read_element<'a>(
    bytes: &'a [u8],
    offset: usize,
    room: usize,
    strings: Strings,
    parts: &mut Vec<Part<'a>>,
) -> Result<(usize, &'a [u8]), BerError>
    requires { offset + length bytes.now < 2 ^ 64 }
    ensures ok { IfOk result
        (λ it. IsElementRead strings room bytes.now parts.old.items parts.new.items it.0 it.1.now) }
    ensures shorter { IfOk result (λ it. length it.1.now < length bytes.now) }
    ensures err { IfErr result (FailsAt strings room offset bytes.now) }
{
    let Some(string) = strings.string_at(bytes) else {
        return read_front(bytes, offset, room, strings, parts);
    };
    let place = parts.len();
    let (_, after) = read_front(bytes, offset, room, Strings::InParts, parts)?;
    let inside = parts.split_off(place + 1)?;
    let content_len = push_content(&inside, string.segment, offset, parts)?;
    parts[place] = Part::Header {
        tag: string.tag,
        content_len,
    };
    Ok((element_size(content_len)?, after))
}

// Reads the element at the front, which isn't a string in parts that becomes primitive.
#[cycle(reading)]
fn read_front<'a>(
    bytes: &'a [u8],
    offset: usize,
    room: usize,
    strings: Strings,
    parts: &mut Vec<Part<'a>>,
) -> Result<(usize, &'a [u8]), BerError>
    requires fits { offset + length bytes.now < 2 ^ 64 }
    requires stays { segment_at strings bytes.now ≡ None }
    ensures ok { IfOk result
        (λ it. IsFrontRead strings room bytes.now parts.old.items parts.new.items it.0 it.1.now) }
    ensures shorter { IfOk result (λ it. length it.1.now < length bytes.now) }
    ensures err { IfErr result (FailsAt strings room offset bytes.now) }
{
    match front_of(bytes, room) {
        Front::Broken(rule) => Err(BerError::Broken {
            position: offset,
            rule,
        }),
        Front::Primitive {
            tag,
            content,
            after,
        } => {
            let content_len = content.len();
            parts.extend_from_slice(&[Part::Header { tag, content_len }, Part::Content(content)])?;
            Ok((element_size(content_len)?, after))
        }
        Front::Definite {
            tag,
            content,
            after,
        } => {
            let end = offset + (bytes.len() - after.len());
            let start = end - content.len();
            let (size, _) = read_inside(tag, content, Until::End, start, room, strings, parts)?;
            Ok((size, after))
        }
        Front::Indefinite { tag, inside } => {
            let start = offset + 2;
            read_inside(
                tag,
                inside,
                Until::EndOfContents,
                start,
                room,
                strings,
                parts,
            )
        }
    }
}

// Reads what is in a constructed element with this tag. Returns how many bytes the element has in DER.
#[cycle(reading)]
fn read_inside<'a>(
    tag: Tag,
    bytes: &'a [u8],
    until: Until,
    offset: usize,
    room: usize,
    strings: Strings,
    parts: &mut Vec<Part<'a>>,
) -> Result<(usize, &'a [u8]), BerError>
    requires fits { offset + length bytes.now < 2 ^ 64 }
    requires room { 0 < room }
    ensures ok { IfOk result
        (λ it. IsInsideRead tag until strings room bytes.now parts.old.items parts.new.items it.0 it.1.now) }
    ensures err { IfErr result (FailsWithin until strings (room - 1) offset bytes.now) }
{
    let place = parts.len();
    parts.extend_from_slice(&[Part::Header {
        tag,
        content_len: 0,
    }])?;
    let (content_len, after) = read_elements(bytes, until, offset, room - 1, strings, parts)?;
    parts[place] = Part::Header { tag, content_len };
    Ok((element_size(content_len)?, after))
}
