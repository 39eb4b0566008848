//! The forms of rows.

use crate::answers::Writing;
use crate::calls::Calls;
use crate::devices::{Device, refused_call};
use crate::notation::bytes_in;
use crate::{calls, growths, streams, tool, typed, values, writing};
use der_fixtures::WriterFault;
use std::alloc::{AllocError, Global};

/// Returns the result of a row. An empty line is its own result, and so is a heading, which begins with `#`.
///
/// | Row | Result |
/// |---|---|
/// | `read [BYTES] as TYPE` | `ok TAKEN [BYTES] VALUE` with the bytes that the value is written as, or `refused ERROR` |
/// | `draw LIMIT [BYTES] as TYPE` | the same with a reader of one byte per call; TAKEN is how many it returned; or `refused ERROR after DRAWN` |
/// | `quick read ..`, `quick draw ..` | the same, without trying the value's encoding as a [hostile](crate::hostile) one |
/// | `hostile [BYTES] as TYPE` | how many values and errors of each kind this encoding gives, with each byte replaced by each of the 256 bytes |
/// | `apart [BYTES] as TYPE` | how many values the bytes have, one after another, if no value's encoding begins another's |
/// | `sweep readers failing with KIND [BYTES] as TYPE` | what is returned if the reader's call 1, 2 and so on fails, and at 0 none |
/// | `sweep writers failing with KIND [BYTES] as TYPE` | the same with a writer, for the value that these bytes encode |
/// | `sweep slices [BYTES] as TYPE` | the same with slices of each length from 0 on |
/// | `sweep vectors [BYTES] as TYPE` | the same with vectors that are written over |
/// | `write VALUE` | `ok COUNT [BYTES]`, or `refused ERROR [BYTES]` with the bytes that were written by then |
/// | `call [BYTES] CALLS` | what each call of one deserializer returns, and how many bytes are consumed by then |
/// | `call limit LIMIT [BYTES] CALLS` | the same with a reader of one byte per call, and how many bytes were read |
/// | `call limit LIMIT failing at N with KIND [BYTES] CALLS` | the same with a reader whose call number N fails |
/// | `put CALLS` | what each call of one serializer returns, and the bytes that reach the writer |
/// | `put failing at N with KIND: CALLS` | the same with a writer of one byte per call whose call number N fails |
/// | `stream [BYTES] CALLS` | what each call of a reader over memory returns, and how many bytes are left |
/// | `stream failing at N with KIND [BYTES] CALLS` | the same with a reader of one byte per call whose call N fails, and how many bytes were read |
/// | `peek ..` | as `stream ..`, with a reader that can look at the next byte, and how many bytes were returned by then |
/// | `sink failing at N with KIND: CALLS` | what each call of a writer returns whose call N fails, and the bytes it accepted, one per call |
/// | `fill LENGTH CALLS` | the same with a writer over a slice of LENGTH bytes EE, and what the slice holds |
/// | `tool "LINE"` | what `der_tool` prints for that line |
/// | `copy [BYTES] as TYPE` | `whole`, if the copy of the value is equal to it |
/// | `signed [BYTES] as TYPE` | the bytes that the signature of the certificate or the list is over |
/// | `grow read [BYTES] as TYPE` | `whole`, if all calls agree: on a value and its encoding, or on the error |
/// | `grow write VALUE` | `whole`, if each call that writes does the same |
/// | `grow tool "LINE", .. as "ANSWER", ..` | `whole`, if this is what `der_tool` prints for these lines |
/// | `spend TIMES` | `whole`, after this many allocations, each of which was freed again |
///
/// In the rows `grow ..`, `copy ..` and `spend ..` each allocation may fail. The result is `OutOfMemory of CALL` if one
/// failed, and the call returned that error and left what it should. It is `wrong CALL` if a call did anything else.
///
/// A part that repeats N times in bytes and lines may be written as `N*PART`.
pub(crate) fn output_of(alloc: Global, row: &str) -> Result<String, AllocError> {
    if row.is_empty() || row.starts_with('#') {
        return String::from_str(alloc, row);
    }
    // A proof about the word alone is much shorter than one about patterns with the word and the rest.
    let (word, rest) = row.split_once(" ").unwrap_or((row, ""));
    match word {
        "write" => values::answer(alloc, Writing::Whole, rest),
        "call" => answer_calls(alloc, rest),
        "put" => answer_puts(alloc, rest),
        "stream" => streams::answer_stream(alloc, rest),
        "peek" => streams::answer_peek(alloc, rest),
        "sink" => streams::answer_sink(alloc, rest),
        "fill" => streams::answer_fill(alloc, rest),
        "tool" => tool::answer(alloc, rest),
        "grow" => answer_growing(alloc, row, rest),
        "spend" => growths::spend(alloc, rest),
        _ => typed::answer(alloc, row),
    }
}

fn answer_growing(alloc: Global, row: &str, rest: &str) -> Result<String, AllocError> {
    let (word, rest) = rest.split_once(" ").unwrap_or((rest, ""));
    match word {
        "write" => values::answer(alloc, Writing::Growing, rest),
        "tool" => tool::answer_growing(alloc, rest),
        _ => typed::answer(alloc, row),
    }
}

fn answer_calls(alloc: Global, row: &str) -> Result<String, AllocError> {
    match called(alloc, row) {
        Some(calls) => calls::answer(alloc, &calls),
        None => String::from_str(alloc, "unknown reader"),
    }
}

// The calls of a row, and what they read.
fn called(alloc: Global, row: &str) -> Option<Calls<'_>> {
    let (source, rest) = row.split_once("[")?;
    let (bytes, names) = rest.split_once("] ")?;
    let device = match source {
        "" => None,
        _ => Some(Device::named(source)?),
    };
    let bytes = bytes_in(alloc, bytes)?;
    Some(Calls {
        bytes,
        device,
        names,
    })
}

fn answer_puts(alloc: Global, row: &str) -> Result<String, AllocError> {
    let Some(rest) = row.strip_prefix("failing at ") else {
        return writing::answer(alloc, 0, WriterFault::TakesNothing, row);
    };
    match refused_call(rest) {
        Some((call, refusal, names)) => writing::answer(alloc, call, refusal, names),
        None => String::from_str(alloc, "unknown writer"),
    }
}
