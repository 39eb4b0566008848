//! Lines of `der_tool`.

use crate::growths::{self, OLD, Stop, Wanted};
use crate::notation::expanded;
use der_tool_lib::run;
use picky_asn1_der::misc::{BufSink, SliceSink};
use std::alloc::{AllocError, Global};

/// What the tool returns for the line in these quotes, without the byte that ends it.
pub(crate) fn answer(alloc: Global, row: &str) -> Result<String, AllocError> {
    let Some(line) = quoted(row) else {
        return String::from_str(alloc, "unknown line");
    };
    let line = expanded(alloc, line)?;
    let mut input = line.as_bytes();
    let mut text = Vec::new(alloc);
    let mut output = BufSink::new(&mut text);
    let outcome = run(alloc, &mut input, &mut output);
    drop(output);
    match outcome {
        Ok(()) => String::from_str(alloc, text_of_line(&text)),
        Err(error) => format!(in alloc; "stopped {error}"),
    }
}

// A whole line without its end.
fn text_of_line(bytes: &[u8]) -> &str {
    match bytes.split_last() {
        Some((b'\n', line)) => str::from_utf8(line).unwrap_or("no text"),
        _ => "no whole line",
    }
}

/// Whether the tool gives these results for lines, in a row `"LINE", .. as "ANSWER", ..`. Allocations may fail.
pub(crate) fn answer_growing(alloc: Global, row: &str) -> Result<String, AllocError> {
    let Some((lines, answers)) = row.split_once(" as ") else {
        return String::from_str(alloc, "unknown lines");
    };
    let lines = ended(alloc, lines)?;
    let answers = ended(alloc, answers)?;
    let mut left = vec![in alloc; OLD; answers.len()]?;
    growths::answer(alloc, answered(alloc, &lines, &answers, &mut left))
}

// Each of the lines, which are in quotes, with its end.
fn ended(alloc: Global, lines: &str) -> Result<Vec<u8>, AllocError> {
    let mut text = Vec::new(alloc);
    for line in lines.split(", ") {
        text.extend_from_slice(quoted(line).unwrap_or(line).as_bytes())?;
        text.push(b'\n')?;
    }
    Ok(text)
}

// A run in which an allocation fails has written the whole results of the lines before that one.
fn answered(alloc: Global, lines: &[u8], answers: &[u8], left: &mut [u8]) -> Result<(), Stop> {
    let mut rest = lines;
    let mut sink = SliceSink::new(left);
    let outcome = run(alloc, &mut rest, &mut sink);
    let left = sink.into_inner();
    let text = left.split(|byte| *byte == OLD).next().unwrap_or(left);
    let drawn = ends(lines).saturating_sub(ends(rest));
    let is_whole = text.is_empty() || text.ends_with(b"\n");
    if !is_whole || !matches!(drawn.checked_sub(ends(text)), Some(0 | 1)) {
        return Err(Stop::Wrong("run"));
    }
    let wanted = Wanted {
        encoding: answers,
        outcome: Ok(answers.len()),
    };
    wanted.was_left("run", outcome.map(|()| answers.len()), left)
}

// How many lines end in the text.
fn ends(text: &[u8]) -> usize {
    text.iter().filter(|byte| **byte == b'\n').count()
}

// The text between a pair of quotes.
fn quoted(row: &str) -> Option<&str> {
    row.strip_prefix("\"")?.strip_suffix("\"")
}
