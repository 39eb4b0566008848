//! Calls of one reader or writer, one after another.

use crate::calls::shown;
use crate::devices::{Fault, refused_call};
use crate::notation::bytes_in;
use der_fixtures::{FailingWriter, text_of};
use picky_asn1_der::misc::{Length, PeekableReader, ReadExt, SliceSink, Watched, WriteExt};
use std::alloc::{AllocError, Global};
use std::io;
use std::io::{ErrorKind, Read, Write};

// The bytes of a row, how they are read, and the calls, separated by `, `.
#[derive(Drop)]
struct Stream<'a> {
    bytes: Vec<u8>,

    // The failure of a reader that returns the bytes one per call. If there is none, they are in memory.
    fault: Option<Fault>,

    names: &'a str,
}

impl<'a> Stream<'a> {
    // The stream that `[BYTES] CALLS` or `failing at N with KIND [BYTES] CALLS` names.
    fn of(alloc: Global, row: &'a str) -> Option<Stream<'a>> {
        let (source, rest) = row.split_once("[")?;
        let (bytes, names) = rest.split_once("] ")?;
        let fault = match source.strip_suffix(" ") {
            None => None,
            Some(source) => Some(Fault::named(source.strip_prefix("failing at ")?)?),
        };
        let bytes = bytes_in(alloc, bytes)?;
        Some(Stream {
            bytes,
            fault,
            names,
        })
    }
}

/// What the calls of a reader return, and how many bytes are left in memory, or were read from the reader.
pub(crate) fn answer_stream(alloc: Global, row: &str) -> Result<String, AllocError> {
    let Some(stream) = Stream::of(alloc, row) else {
        return String::from_str(alloc, "unknown stream");
    };
    match stream.fault {
        None => {
            let mut rest = stream.bytes.as_slice();
            let answers = read_answers(alloc, &mut rest, stream.names)?;
            let left = rest.len();
            format!(in alloc; "{answers}, {left} left")
        }
        Some(fault) => {
            let mut reader = Watched::new(fault.reader(&stream.bytes));
            let answers = read_answers(alloc, &mut reader, stream.names)?;
            let given = reader.get_ref().given();
            format!(in alloc; "{answers}, {given} drawn")
        }
    }
}

/// What the calls of a reader with one byte of lookahead return. Each result has how many bytes were returned by then.
pub(crate) fn answer_peek(alloc: Global, row: &str) -> Result<String, AllocError> {
    let Some(stream) = Stream::of(alloc, row) else {
        return String::from_str(alloc, "unknown stream");
    };
    match stream.fault {
        None => {
            let mut reader = PeekableReader::new(stream.bytes.as_slice());
            peek_answers(alloc, &mut reader, stream.names)
        }
        Some(fault) => {
            let reader = Watched::new(fault.reader(&stream.bytes));
            peek_answers(alloc, &mut PeekableReader::new(reader), stream.names)
        }
    }
}

fn read_answers<R: ReadExt>(
    alloc: Global,
    reader: &mut R,
    names: &str,
) -> Result<String, AllocError> {
    Ok(answer_each!(alloc; name in names, ", ", answer_read(alloc, reader, name)))
}

fn peek_answers<R: ReadExt>(
    alloc: Global,
    reader: &mut PeekableReader<R>,
    names: &str,
) -> Result<String, AllocError> {
    Ok(answer_each!(alloc; name in names, ", ", {
        let answer = match name {
            "peek_one" => shown(alloc, &with_kind(reader.peek_one()))?,
            _ => answer_read(alloc, reader, name)?,
        };
        let pos = reader.pos();
        format!(in alloc; "{answer} at {pos}")
    }))
}

fn answer_read<R: ReadExt>(
    alloc: Global,
    reader: &mut R,
    name: &str,
) -> Result<String, AllocError> {
    match name.split_once(" ") {
        Some((call, room)) => answer_piece(alloc, reader, call, room),
        None => match name {
            "read_next" => shown(alloc, &with_kind(reader.read_next())),
            "read_one" => shown(alloc, &with_kind(reader.read_one())),
            "length" => shown(alloc, &Length::deserialized(reader)),
            _ => String::from_str(alloc, "unknown call"),
        },
    }
}

// The calls with room for a number of bytes.
fn answer_piece<R: ReadExt>(
    alloc: Global,
    reader: &mut R,
    call: &str,
    room: &str,
) -> Result<String, AllocError> {
    let Ok(room) = room.parse::<usize>() else {
        return String::from_str(alloc, "unknown room");
    };
    let mut buf = vec![in alloc; 0; room]?;
    let outcome = match call {
        "read" => reader.read(&mut buf),
        "read_some" => reader.read_some(&mut buf),
        _ => return String::from_str(alloc, "unknown call"),
    };
    match with_kind(outcome) {
        Ok(count) => {
            buf.truncate(count);
            format!(in alloc; "Ok({buf:?})")
        }
        Err(kind) => format!(in alloc; "Err({kind:?})"),
    }
}

/// What the calls of a writer return that accepts one byte per call and fails once, and the bytes that were written.
pub(crate) fn answer_sink(alloc: Global, row: &str) -> Result<String, AllocError> {
    let refused = match row.strip_prefix("failing at ") {
        Some(rest) => refused_call(rest),
        None => None,
    };
    let Some((call, refusal, names)) = refused else {
        return String::from_str(alloc, "unknown writer");
    };
    let mut writer = Watched::new(FailingWriter::new(alloc, call, refusal));
    let answers = write_answers(alloc, &mut writer, names)?;
    let row = text_of(alloc, writer.get_ref().taken())?;
    format!(in alloc; "{answers} [{row}]")
}

/// What the calls of a writer over a slice of LENGTH bytes EE return, and what the slice holds then.
pub(crate) fn answer_fill(alloc: Global, row: &str) -> Result<String, AllocError> {
    let Some((len, names)) = room_and_calls(row) else {
        return String::from_str(alloc, "unknown room");
    };
    let mut room = vec![in alloc; 0xEE; len]?;
    let mut sink = SliceSink::new(&mut room);
    let answers = write_answers(alloc, &mut sink, names)?;
    let row = text_of(alloc, sink.into_inner())?;
    format!(in alloc; "{answers} [{row}]")
}

fn room_and_calls(row: &str) -> Option<(usize, &str)> {
    let (len, names) = row.split_once(" ")?;
    Some((len.parse().ok()?, names))
}

fn write_answers<W: WriteExt>(
    alloc: Global,
    writer: &mut W,
    names: &str,
) -> Result<String, AllocError> {
    Ok(answer_each!(alloc; name in names, ", ", answer_write(alloc, writer, name)))
}

fn answer_write<W: WriteExt>(
    alloc: Global,
    writer: &mut W,
    name: &str,
) -> Result<String, AllocError> {
    if name == "flush" {
        return shown(alloc, &with_kind(writer.flush()));
    }
    let Some((call, bytes)) = with_bytes(alloc, name) else {
        return String::from_str(alloc, "unknown bytes");
    };
    let outcome = match (call, bytes.as_slice()) {
        ("write", bytes) => writer.write(bytes),
        ("write_exact", bytes) => writer.write_exact(bytes),
        ("write_one", [byte]) => writer.write_one(*byte),
        _ => return String::from_str(alloc, "unknown call"),
    };
    shown(alloc, &with_kind(outcome))
}

// A call and the bytes that it writes: `write [02 01 07]`.
fn with_bytes(alloc: Global, name: &str) -> Option<(&str, Vec<u8>)> {
    let (call, bytes) = name.strip_suffix("]")?.split_once(" [")?;
    Some((call, bytes_in(alloc, bytes)?))
}

// The result, with the kind of the error.
fn with_kind<T>(answer: io::Result<T>) -> Result<T, ErrorKind> {
    answer.map_err(|error| error.kind())
}
