//! Encodings that are cut short, read with a limit, and changed at one place.

use crate::reads::{below_limit, by_deserializer, by_from_bytes, by_from_reader};
use picky_asn1_der::Asn1DerError::{InvalidData, TruncatedData, UnsupportedValue};
use picky_asn1_der::de::DEFAULT_MAX_LEN;
use picky_asn1_der::{Asn1DerError, Deserialize, to_vec};
use std::alloc::{AllocError, Global};

// Longer encodings are read once for each change, from a slice only, since everything else takes too long.
const LONGEST_READ_AGAIN: usize = 4096;

/// Where an encoding isn't read as it must be.
#[derive(Clone, Copy, Debug)]
pub(crate) enum Wrong {
    /// The prefix of this length isn't reported as cut short.
    Front(usize),
    /// With this limit it isn't read, or it is read although it is longer, or it consumes more or fewer bytes than its
    /// encoding.
    Limit(usize),
    /// With this byte at this place a value is read that is written differently, or the result changes when more bytes
    /// follow.
    Change(usize, u8),
    /// An allocation failed.
    Memory,
}

impl From<AllocError> for Wrong {
    fn from(_: AllocError) -> Wrong {
        Wrong::Memory
    }
}

// Where bytes are read from: a slice, or a reader that returns one byte per call.
#[derive(Clone, Copy)]
enum Source {
    Slice,
    Reader,
}

// The outcome of reading bytes.
#[derive(Clone, Copy, PartialEq, Eq)]
enum Outcome {
    // A value whose encoding is the bytes that were consumed. It stays the same, whatever bytes follow.
    Value,
    // An error because bytes are missing.
    Truncated,
    // Errors that stay the same, whatever bytes follow the ones that cause them.
    Invalid,
    Unsupported,
    // A value with another encoding, another error, or a result that changes.
    Wrong,
}

impl Outcome {
    fn refused(error: Asn1DerError) -> Outcome {
        match error {
            TruncatedData => Outcome::Truncated,
            InvalidData => Outcome::Invalid,
            UnsupportedValue => Outcome::Unsupported,
            _ => Outcome::Wrong,
        }
    }
}

/// The outcomes of an encoding with one byte changed, counted over all places and bytes.
#[derive(Clone, Copy)]
pub(crate) struct Tally {
    values: usize,
    truncated: usize,
    invalid: usize,
    unsupported: usize,
}

impl Tally {
    const NOTHING: Tally = Tally {
        values: 0,
        truncated: 0,
        invalid: 0,
        unsupported: 0,
    };

    fn count(&mut self, outcome: Outcome) {
        let counter = match outcome {
            Outcome::Value => &mut self.values,
            Outcome::Truncated => &mut self.truncated,
            Outcome::Invalid => &mut self.invalid,
            Outcome::Unsupported => &mut self.unsupported,
            Outcome::Wrong => return,
        };
        *counter = counter.saturating_add(1);
    }

    fn shown(self, alloc: Global) -> Result<String, AllocError> {
        let Tally {
            values,
            truncated,
            invalid,
            unsupported,
        } = self;
        format!(in alloc;
            "{values} values, {truncated} TruncatedData, {invalid} InvalidData, {unsupported} UnsupportedValue"
        )
    }
}

/// The outcomes of this encoding, changed at each place, if everything else is read correctly.
pub(crate) fn answer<T: Deserialize>(alloc: Global, encoding: &[u8]) -> Result<String, AllocError> {
    match by_from_bytes::<T>(alloc, encoding) {
        Ok(value) => match tried(alloc, encoding, &value) {
            Ok(tally) => tally.shown(alloc),
            Err(wrong) => format!(in alloc; "{wrong:?}"),
        },
        Err(error) => format!(in alloc; "refused {error}"),
    }
}

/// Tries this encoding of a value: cut short at each place, with each limit, and with each byte at each place.
pub(crate) fn tried<T: Deserialize>(
    alloc: Global,
    encoding: &[u8],
    value: &T,
) -> Result<Tally, Wrong> {
    try_fronts::<T>(alloc, encoding)?;
    try_limits(alloc, encoding, value)?;
    try_changes::<T>(alloc, encoding)
}

// Each prefix is refused as cut short, from a slice and from a reader.
fn try_fronts<T: Deserialize>(alloc: Global, encoding: &[u8]) -> Result<(), Wrong> {
    for len in 0..encoding.len() {
        let front = &encoding[..len];
        let from_slice = by_from_bytes::<T>(alloc, front);
        let from_reader = by_from_reader::<T>(alloc, front);
        let errors = (from_slice.err(), from_reader.err());
        if errors != (Some(TruncatedData), Some(TruncatedData)) {
            return Err(Wrong::Front(len));
        }
    }
    Ok(())
}

// Other bytes follow it, and none of them is read. A limit below its length counts as the end of the input.
fn try_limits<T: Deserialize>(alloc: Global, encoding: &[u8], value: &T) -> Result<(), Wrong> {
    let len = encoding.len();
    let input = with_others_after(alloc, encoding, len)?;
    for limit in 0..len.saturating_add(4) {
        let (outcome, drawn) = below_limit::<T>(alloc, &input, limit);
        let right = match &outcome {
            Ok(read) => limit >= len && drawn == len && read == value,
            Err(error) => limit < len && drawn <= limit && *error == TruncatedData,
        };
        if !right {
            return Err(Wrong::Limit(limit));
        }
    }
    Ok(())
}

// The first `len` bytes of the front, followed by 64 bytes that begin nothing.
fn with_others_after(alloc: Global, front: &[u8], len: usize) -> Result<Vec<u8>, AllocError> {
    let mut bytes = Vec::from_slice(alloc, front)?;
    bytes.truncate(len);
    bytes.extend_from_slice(&[0xFF; 64])?;
    Ok(bytes)
}

// Each byte is replaced by each of the 256 bytes.
fn try_changes<T: Deserialize>(alloc: Global, encoding: &[u8]) -> Result<Tally, Wrong> {
    let mut tally = Tally::NOTHING;
    for place in 0..encoding.len() {
        try_bytes::<T>(alloc, encoding, place, &mut tally)?;
    }
    Ok(tally)
}

fn try_bytes<T: Deserialize>(
    alloc: Global,
    encoding: &[u8],
    place: usize,
    tally: &mut Tally,
) -> Result<(), Wrong> {
    let mut changed = Vec::from_slice(alloc, encoding)?;
    for byte in 0..=u8::MAX {
        if let Some(changing) = changed.get_mut(place) {
            *changing = byte;
        }
        match outcome_of_changed::<T>(alloc, &changed)? {
            Outcome::Wrong => return Err(Wrong::Change(place, byte)),
            outcome => tally.count(outcome),
        }
    }
    Ok(())
}

// The outcome from a reader that returns one byte per call, if a slice agrees.
fn outcome_of_changed<T: Deserialize>(alloc: Global, bytes: &[u8]) -> Result<Outcome, AllocError> {
    if bytes.len() > LONGEST_READ_AGAIN {
        return Ok(outcome_at_once::<T>(alloc, bytes));
    }
    let from_slice = outcome_of::<T>(alloc, Source::Slice, bytes)?;
    let from_reader = outcome_of::<T>(alloc, Source::Reader, bytes)?;
    if agree(from_slice, from_reader) {
        Ok(from_reader)
    } else {
        Ok(Outcome::Wrong)
    }
}

// The outcome from a slice, whatever bytes follow.
fn outcome_at_once<T: Deserialize>(alloc: Global, bytes: &[u8]) -> Outcome {
    let (answer, used) = read::<T>(alloc, Source::Slice, bytes);
    match answer {
        Ok(value) => {
            if is_written_as(alloc, &value, bytes, used) {
                Outcome::Value
            } else {
                Outcome::Wrong
            }
        }
        Err(error) => Outcome::refused(error),
    }
}

// The errors may differ. A slice with too few bytes is refused at the length that needs them. A reader returns what
// comes before its end first.
fn agree(from_slice: Outcome, from_reader: Outcome) -> bool {
    (from_slice == Outcome::Value) == (from_reader == Outcome::Value)
        && from_slice != Outcome::Wrong
        && from_reader != Outcome::Wrong
}

fn outcome_of<T: Deserialize>(
    alloc: Global,
    source: Source,
    bytes: &[u8],
) -> Result<Outcome, AllocError> {
    let (answer, used) = read::<T>(alloc, source, bytes);
    if let Err(TruncatedData) = answer {
        return Ok(Outcome::Truncated);
    }
    let input = with_others_after(alloc, bytes, used)?;
    let (again, used_again) = read::<T>(alloc, source, &input);
    match answer {
        Ok(value) => {
            let same = match &again {
                Ok(same) => *same == value && used_again == used,
                Err(_) => false,
            };
            if same && is_written_as(alloc, &value, bytes, used) {
                Ok(Outcome::Value)
            } else {
                Ok(Outcome::Wrong)
            }
        }
        Err(error) => {
            if again.err() == Some(error) {
                Ok(Outcome::refused(error))
            } else {
                Ok(Outcome::Wrong)
            }
        }
    }
}

// What is read, and how many bytes were consumed for it. For an error, how many bytes it depends on.
fn read<T: Deserialize>(
    alloc: Global,
    source: Source,
    bytes: &[u8],
) -> (picky_asn1_der::Result<T>, usize) {
    match source {
        Source::Slice => {
            let (answer, taken) = by_deserializer(alloc, bytes);
            let used = if answer.is_ok() { taken } else { bytes.len() };
            (answer, used)
        }
        Source::Reader => below_limit(alloc, bytes, DEFAULT_MAX_LEN),
    }
}

// The value is written as this many bytes of the front.
fn is_written_as<T: Deserialize>(alloc: Global, value: &T, bytes: &[u8], len: usize) -> bool {
    match to_vec(alloc, value) {
        Ok(encoding) => encoding.len() == len && bytes.starts_with(&encoding),
        Err(_) => false,
    }
}
