//! The calls of a deserializer that open a sequence, and the calls of the sequence.

use crate::calls::shown;
use crate::reading;
use picky_asn1_der::misc::ReadExt;
use picky_asn1_der::ser::Number;
use picky_asn1_der::{Deserializer, de};
use std::alloc::{AllocError, Global};

/// The result of a call. A call that opens a sequence is followed by the calls of the sequence, in braces and separated
/// by `; `. If the last of them isn't `end`, the sequence is dropped.
pub(crate) fn answer<R: ReadExt>(
    alloc: Global,
    de: &mut Deserializer<R>,
    name: &str,
) -> Result<String, AllocError> {
    match opening(name) {
        Some((opening, calls)) => answer_sequence(alloc, de, opening, calls),
        None => reading::answer(alloc, de, name),
    }
}

// A call that opens a sequence, and the calls of the sequence.
fn opening(name: &str) -> Option<(&str, &str)> {
    name.strip_suffix("}")?.split_once(" {")
}

// What the calls of the opened sequence return, and its end. No function may take a sequence by value, so it is ended
// where it is.
fn answer_sequence<R: ReadExt>(
    alloc: Global,
    de: &mut Deserializer<R>,
    opening: &str,
    calls: &str,
) -> Result<String, AllocError> {
    match opened(de, opening) {
        Some(Ok(mut members)) => {
            let answers = member_answers(alloc, &mut members, calls)?;
            if !calls.ends_with("; end") {
                return Ok(answers);
            }
            ended(alloc, &answers, members.end())
        }
        Some(Err(error)) => shown(alloc, &error),
        None => String::from_str(alloc, "unknown sequence"),
    }
}

// The sequence that this call opens. The names and lengths don't matter.
fn opened<'a, R: ReadExt>(
    de: &'a mut Deserializer<R>,
    opening: &str,
) -> Option<picky_asn1_der::Result<de::Sequence<'a, R>>> {
    match opening {
        "deserialize_seq" => Some(de.deserialize_seq()),
        "deserialize_set" => Some(de.deserialize_set()),
        "deserialize_tuple" => Some(de.deserialize_tuple(0)),
        "deserialize_tuple_struct" => Some(de.deserialize_tuple_struct("Eight", 3)),
        "deserialize_struct" => Some(de.deserialize_struct("Eight", &["number", "name"])),
        _ => {
            let len = opening.strip_prefix("deserialize_lazy ")?.parse().ok()?;
            Some(Ok(de::Sequence::deserialize_lazy(de, len)))
        }
    }
}

// What the calls of a sequence return, and what its end returns.
fn ended(
    alloc: Global,
    answers: &str,
    end: picky_asn1_der::Result<()>,
) -> Result<String, AllocError> {
    format!(in alloc; "{answers}; {end:?}")
}

// The calls except `end`, which consumes the sequence. A member is a `u8`, and its default is 0.
fn member_answers<R: ReadExt>(
    alloc: Global,
    members: &mut de::Sequence<'_, R>,
    names: &str,
) -> Result<String, AllocError> {
    let calls = names.strip_suffix("; end").unwrap_or(names);
    Ok(answer_each!(alloc; name in calls, "; ", match name {
        "next_element" => shown(alloc, &members.next_element::<u8>()),
        "next_field" => shown(alloc, &members.next_field::<u8>()),
        "next_optional" => shown(alloc, &members.next_optional::<u8>()),
        "next_or_default" => shown(alloc, &members.next_or_default::<u8, Number<0>>()),
        "next_tag" => shown(alloc, &members.next_tag()),
        "drop" => String::from_str(alloc, "dropped"),
        _ => String::from_str(alloc, "unknown call"),
    }))
}
