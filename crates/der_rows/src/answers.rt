//! The results of rows, for any type.

use crate::copies::{Copied, is_copied};
use crate::hostile::Wrong;
use crate::reads::{below_limit, by_deserializer, by_from_bytes};
use crate::{apart, growths, hostile};
use der_fixtures::{SlowWriter, text_of};
use picky_asn1_der::misc::Watched;
use picky_asn1_der::{Deserialize, Serialize, to_vec, to_writer};
use std::alloc::{AllocError, Global};
use std::fmt::Debug;

/// The bytes of a row, and how they are read.
#[derive(Drop)]
pub(crate) struct RowBytes {
    pub(crate) bytes: Vec<u8>,
    pub(crate) way: Way,
    pub(crate) trial: Trial,
}

/// Whether the encoding of the value is also tried as a hostile one.
#[derive(Clone, Copy)]
pub(crate) enum Trial {
    Hostile,
    None,
}

/// How the bytes of a row are read.
#[derive(Clone, Copy)]
pub(crate) enum Way {
    /// From a slice.
    Slice,
    /// From a reader that returns one byte per call, with this limit.
    Reader(usize),
    /// As an encoding that is cut short, read with limits, and changed.
    Hostile,
    /// As values one after another, where no value's encoding begins another's.
    Apart,
    /// By each call that reads, and then written by each call that writes. Any allocation may fail.
    Growing,
}

impl Way {
    /// The way that `read`, `draw LIMIT`, `hostile`, `apart` or `grow read` names.
    pub(crate) fn named(words: &str) -> Option<Way> {
        match words {
            "read" => Some(Way::Slice),
            "hostile" => Some(Way::Hostile),
            "apart" => Some(Way::Apart),
            "grow read" => Some(Way::Growing),
            _ => Some(Way::Reader(words.strip_prefix("draw ")?.parse().ok()?)),
        }
    }
}

/// The result of reading the bytes as this type.
pub(crate) fn read_as<T: Deserialize + Debug>(
    alloc: Global,
    row: &RowBytes,
) -> Result<String, AllocError> {
    match row.way {
        Way::Slice => read_slice::<T>(alloc, row),
        Way::Reader(limit) => read_a_byte_a_call::<T>(alloc, row, limit),
        Way::Hostile => hostile::answer::<T>(alloc, &row.bytes),
        Way::Apart => apart::answer::<T>(alloc, &row.bytes),
        Way::Growing => growths::read::<T>(alloc, &row.bytes),
    }
}

/// The same for a type with a `clone` of its own. The copy of what is read from a slice must be equal to it.
pub(crate) fn read_copied<T: Copied + Debug>(
    alloc: Global,
    row: &RowBytes,
) -> Result<String, AllocError> {
    if matches!(row.way, Way::Slice) && !is_copied::<T>(alloc, &row.bytes) {
        return String::from_str(alloc, "the copy differs");
    }
    read_as::<T>(alloc, row)
}

fn read_slice<T: Deserialize + Debug>(alloc: Global, row: &RowBytes) -> Result<String, AllocError> {
    let (outcome, taken) = by_deserializer::<T>(alloc, &row.bytes);
    if by_from_bytes(alloc, &row.bytes) != outcome {
        return format!(in alloc; "from_bytes differs");
    }
    match outcome {
        Ok(value) => shown(alloc, row.trial, taken, &value),
        Err(error) => format!(in alloc; "refused {error}"),
    }
}

fn read_a_byte_a_call<T: Deserialize + Debug>(
    alloc: Global,
    row: &RowBytes,
    limit: usize,
) -> Result<String, AllocError> {
    let (outcome, drawn) = below_limit::<T>(alloc, &row.bytes, limit);
    match outcome {
        Ok(value) => shown(alloc, row.trial, drawn, &value),
        Err(error) => format!(in alloc; "refused {error} after {drawn}"),
    }
}

// How many bytes were consumed, the bytes that the value is written as, and the value. Or an error in how these bytes
// are read.
fn shown<T: Deserialize + Debug>(
    alloc: Global,
    trial: Trial,
    taken: usize,
    value: &T,
) -> Result<String, AllocError> {
    let bytes = match to_vec(alloc, value) {
        Ok(bytes) => bytes,
        Err(error) => return format!(in alloc; "ok {taken} but {error} {value:?}"),
    };
    let row = text_of(alloc, &bytes)?;
    match tried(alloc, trial, &bytes, value) {
        Ok(()) => format!(in alloc; "ok {taken} [{row}] {value:?}"),
        Err(wrong) => format!(in alloc; "ok {taken} [{row}] {wrong:?}"),
    }
}

fn tried<T: Deserialize>(
    alloc: Global,
    trial: Trial,
    encoding: &[u8],
    value: &T,
) -> Result<(), Wrong> {
    match trial {
        Trial::Hostile => hostile::tried(alloc, encoding, value).map(|_| ()),
        Trial::None => Ok(()),
    }
}

/// How a value is written.
#[derive(Clone, Copy)]
pub(crate) enum Writing {
    /// By `to_writer`, whose result must agree with `to_vec`.
    Whole,
    /// By each call that writes. Any allocation may fail.
    Growing,
}

/// The result of writing the value in this way.
pub(crate) fn written<T: Serialize>(
    alloc: Global,
    how: Writing,
    value: &T,
) -> Result<String, AllocError> {
    match how {
        Writing::Whole => write_whole(alloc, value),
        Writing::Growing => growths::write(alloc, value),
    }
}

// The result of writing the value, and the bytes that reach the writer.
fn write_whole<T: Serialize>(alloc: Global, value: &T) -> Result<String, AllocError> {
    let mut writer = Watched::new(SlowWriter::new(alloc));
    let outcome = to_writer(alloc, value, &mut writer);
    let bytes = writer.get_ref().taken();
    let same = match to_vec(alloc, value) {
        Ok(vector) => outcome == Ok(vector.len()) && bytes == vector.as_slice(),
        Err(error) => outcome == Err(error),
    };
    if !same {
        return String::from_str(alloc, "to_vec differs");
    }
    let row = text_of(alloc, bytes)?;
    match outcome {
        Ok(count) => format!(in alloc; "ok {count} [{row}]"),
        Err(error) => format!(in alloc; "refused {error} [{row}]"),
    }
}
