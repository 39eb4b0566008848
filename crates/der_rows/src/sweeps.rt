//! Readers and writers that fail at each of their calls in turn, and slices and vectors of each length.

use crate::calls::shown;
use crate::devices::{fault_kind, refusal_named};
use crate::runs::in_runs;
use der_examples::{EncryptedData, Host, NumberOrFlag};
use der_fixtures::{FailingReader, FailingWriter, WriterFault, text_of};
use der_tool_lib::{SubjectPublicKeyInfo, TestStruct};
use der_x509::Extension;
use picky_asn1_der::asn1::{Asn1SetOf, BitStringAsn1Container, ByteBuf, ExplicitContextTag0};
use picky_asn1_der::de::DEFAULT_MAX_LEN;
use picky_asn1_der::misc::Watched;
use picky_asn1_der::{
    Asn1DerError, Asn1RawDer, Deserialize, Deserializer, Serialize, Serializer, from_bytes,
    from_reader, to_byte_buf, to_bytes, to_writer,
};
use std::alloc::{AllocError, Global};
use std::io::ErrorKind;

// What a slice or a vector holds before an encoding is written over it: a byte that is in none of the encodings.
const BEFORE: u8 = 0xEE;

/// What goes through each number from 0 on.
#[derive(Clone, Copy)]
pub(crate) enum Sweep {
    /// The call of a reader that fails in this way, until a call isn't made any more. With 0, none fails.
    Reader(ErrorKind),
    /// The call of a writer that fails in this way, likewise.
    Writer(WriterFault),
    /// The length of a slice, up to three more than the length of the encoding.
    Slice,
    /// The length of a vector, likewise.
    Vector,
}

impl Sweep {
    /// The sweep that `sweep slices`, `sweep vectors`, `sweep readers failing with KIND` or `sweep writers failing with
    /// KIND` names.
    pub(crate) fn named(words: &str) -> Option<Sweep> {
        match words.split_once(" failing with ") {
            None if words == "sweep slices" => Some(Sweep::Slice),
            None if words == "sweep vectors" => Some(Sweep::Vector),
            Some(("sweep readers", kind)) => Some(Sweep::Reader(fault_kind(kind)?)),
            Some(("sweep writers", kind)) => Some(Sweep::Writer(refusal_named(kind)?)),
            _ => None,
        }
    }
}

/// The result for each number, for the value of this type with this encoding.
pub(crate) fn answer(
    alloc: Global,
    name: &str,
    sweep: Sweep,
    encoding: &[u8],
) -> Result<String, AllocError> {
    match name {
        "u8" => answer_as::<u8>(alloc, sweep, encoding),
        "()" => answer_as::<()>(alloc, sweep, encoding),
        "char" => answer_as::<char>(alloc, sweep, encoding),
        "ByteBuf" => answer_as::<ByteBuf>(alloc, sweep, encoding),
        "Asn1RawDer" => answer_as::<Asn1RawDer>(alloc, sweep, encoding),
        "Asn1SetOf<u8>" => answer_as::<Asn1SetOf<u8>>(alloc, sweep, encoding),
        "ExplicitContextTag0<BitStringAsn1Container<u8>>" => answer_as::<
            ExplicitContextTag0<BitStringAsn1Container<u8>>,
        >(alloc, sweep, encoding),
        "NumberOrFlag" => answer_as::<NumberOrFlag>(alloc, sweep, encoding),
        "Host" => answer_as::<Host>(alloc, sweep, encoding),
        "TestStruct" => answer_as::<TestStruct>(alloc, sweep, encoding),
        "SubjectPublicKeyInfo" => answer_as::<SubjectPublicKeyInfo>(alloc, sweep, encoding),
        "Extension" => answer_as::<Extension>(alloc, sweep, encoding),
        "EncryptedData" => answer_as::<EncryptedData>(alloc, sweep, encoding),
        _ => String::from_str(alloc, "unknown type"),
    }
}

fn answer_as<T: Deserialize>(
    alloc: Global,
    sweep: Sweep,
    encoding: &[u8],
) -> Result<String, AllocError> {
    let value: T = match from_bytes(alloc, encoding) {
        Ok(value) => value,
        Err(error) => return format!(in alloc; "refused {error}"),
    };
    let past = match sweep {
        Sweep::Reader(_) | Sweep::Writer(_) => 2,
        Sweep::Slice | Sweep::Vector => 4,
    };
    let mut answers = Vec::new(alloc);
    for number in 0..encoding.len().saturating_add(past) {
        let answer = match sweep {
            Sweep::Reader(kind) => read_failing(alloc, &value, encoding, number, kind),
            Sweep::Writer(refusal) => write_failing(alloc, &value, encoding, number, refusal),
            Sweep::Slice => fill_slice(alloc, &value, encoding, number),
            Sweep::Vector => fill_vector(alloc, &value, encoding, number),
        };
        answers.push(answer?)?;
    }
    in_runs(alloc, &answers)
}

// A reader returns the encoding, one byte per call, and fails at this call.
fn read_failing<T: Deserialize>(
    alloc: Global,
    value: &T,
    encoding: &[u8],
    call: usize,
    kind: ErrorKind,
) -> Result<String, AllocError> {
    let reader = Watched::new(FailingReader::new(encoding, call, kind));
    let mut de = Deserializer::new_from_reader(alloc, reader, DEFAULT_MAX_LEN);
    let first = T::deserialize(&mut de);
    let next = match &first {
        Ok(_) => None,
        Err(_) => T::deserialize(&mut de).err(),
    };
    let given = de.into_reader().into_inner().given();
    let mut reader = Watched::new(FailingReader::new(encoding, call, kind));
    if from_reader(alloc, &mut reader) != first {
        return String::from_str(alloc, "from_reader differs");
    }
    match first {
        Ok(read) => {
            let same = read == *value && given == encoding.len();
            String::from_str(alloc, if same { "ok" } else { "other" })
        }
        Err(error) => failed(alloc, error, next, given, call),
    }
}

// A writer accepts one byte per call, and fails at this call.
fn write_failing<T: Serialize>(
    alloc: Global,
    value: &T,
    encoding: &[u8],
    call: usize,
    refusal: WriterFault,
) -> Result<String, AllocError> {
    let writer = Watched::new(FailingWriter::new(alloc, call, refusal));
    let mut ser = Serializer::new_to_writer(alloc, writer);
    let first = value.serialize(&mut ser);
    let next = match first {
        Ok(_) => None,
        Err(_) => value.serialize(&mut ser).err(),
    };
    let inner = ser.into_writer().into_inner();
    let taken = inner.taken();
    let mut writer = Watched::new(FailingWriter::new(alloc, call, refusal));
    if to_writer(alloc, value, &mut writer) != first || writer.get_ref().taken() != taken {
        return String::from_str(alloc, "to_writer differs");
    }
    if !encoding.starts_with(taken) {
        return text_of(alloc, taken);
    }
    match first {
        Ok(count) => {
            let same = count == encoding.len() && taken.len() == count;
            String::from_str(alloc, if same { "ok" } else { "other" })
        }
        Err(error) => failed(alloc, error, next, taken.len(), call),
    }
}

// Only the error, if the next call returns it too, each call before this one transferred a byte, and no later one did.
// Otherwise also what differs.
fn failed(
    alloc: Global,
    error: Asn1DerError,
    next: Option<Asn1DerError>,
    bytes: usize,
    call: usize,
) -> Result<String, AllocError> {
    if next == Some(error) && bytes.saturating_add(1) == call {
        format!(in alloc; "{error}")
    } else {
        format!(in alloc; "{error} after {bytes}, then {next:?}")
    }
}

fn fill_slice<T: Serialize>(
    alloc: Global,
    value: &T,
    encoding: &[u8],
    len: usize,
) -> Result<String, AllocError> {
    let mut room = vec![in alloc; BEFORE; len]?;
    let answer = to_bytes(alloc, value, &mut room);
    let mut wanted = over(alloc, encoding, len)?;
    wanted.truncate(len);
    filled(alloc, answer, &room, &wanted)
}

fn fill_vector<T: Serialize>(
    alloc: Global,
    value: &T,
    encoding: &[u8],
    len: usize,
) -> Result<String, AllocError> {
    let mut room = vec![in alloc; BEFORE; len]?;
    let answer = to_byte_buf(alloc, value, &mut room);
    let wanted = over(alloc, encoding, len)?;
    filled(alloc, answer, &room, &wanted)
}

// The encoding, and after it what is left of the room of this length.
fn over(alloc: Global, encoding: &[u8], len: usize) -> Result<Vec<u8>, AllocError> {
    let mut bytes = Vec::from_slice(alloc, encoding)?;
    bytes.resize(len.max(encoding.len()), BEFORE)?;
    Ok(bytes)
}

// Only the result, if the room holds what it should. Otherwise also what it holds.
fn filled(
    alloc: Global,
    answer: picky_asn1_der::Result<usize>,
    room: &[u8],
    wanted: &[u8],
) -> Result<String, AllocError> {
    if room == wanted {
        return shown(alloc, &answer);
    }
    let row = text_of(alloc, room)?;
    format!(in alloc; "{answer:?} [{row}]")
}
