//! Calls with allocations that may fail.
//!
//! This program makes none fail: `tools/refuse-growths` makes one allocation of a run fail, and another one in the next
//! run. Calls that meet no failure do what the row says. The call that meets it has to return `OutOfMemory`.

use crate::reads::{by_from_bytes, by_from_reader};
use picky_asn1_der::Asn1DerError::OutOfMemory;
use picky_asn1_der::misc::SliceSink;
use picky_asn1_der::{
    Asn1DerError, Deserialize, Deserializer, Result as DerResult, Serialize, Serializer,
    to_byte_buf, to_bytes, to_vec, to_writer,
};
use std::alloc::{AllocError, Global};

/// The bytes of a vector or a slice before it is written over.
pub(crate) const OLD: u8 = 0xEE;

/// Why no further call of a row was made.
#[derive(Clone, Copy)]
pub(crate) enum Stop {
    /// An allocation of this call failed; it returned `OutOfMemory` and left what it should.
    Refused(&'static str),
    /// This call did something else than it should.
    Wrong(&'static str),
}

/// The result of a row whose calls ended like this.
pub(crate) fn answer(alloc: Global, outcome: Result<(), Stop>) -> Result<String, AllocError> {
    match outcome {
        Ok(()) => String::from_str(alloc, "whole"),
        Err(Stop::Refused(call)) => format!(in alloc; "OutOfMemory of {call}"),
        Err(Stop::Wrong(call)) => format!(in alloc; "wrong {call}"),
    }
}

/// Allocates this many times, and frees it again.
pub(crate) fn spend(alloc: Global, times: &str) -> Result<String, AllocError> {
    let mut outcome = Ok(());
    for _ in 0..times.parse::<u32>().unwrap_or(0) {
        if Vec::<u8>::with_capacity(alloc, 1).is_err() {
            outcome = Err(Stop::Refused("spend"));
        }
    }
    answer(alloc, outcome)
}

/// Reads the value at the front of the bytes by each call that reads, and writes it by each call that writes. If there
/// is no value, each call that reads has to fail with the same error.
pub(crate) fn read<T: Deserialize>(alloc: Global, bytes: &[u8]) -> Result<String, AllocError> {
    let mut room = vec![in alloc; OLD; 2]?;
    answer(alloc, read_and_written::<T>(alloc, bytes, &mut room))
}

fn read_and_written<T: Deserialize>(
    alloc: Global,
    bytes: &[u8],
    room: &mut Vec<u8>,
) -> Result<(), Stop> {
    let (value, taken) = match deserialized::<T>(alloc, bytes)? {
        Ok(read) => read,
        Err(error) => return are_refused::<T>(alloc, bytes, error),
    };
    is("from_bytes", by_from_bytes(alloc, bytes), &value)?;
    is("from_reader", by_from_reader(alloc, bytes), &value)?;
    skip(alloc, bytes, taken)?;
    let wanted = Wanted {
        encoding: bytes.get(..taken).unwrap_or(bytes),
        outcome: Ok(taken),
    };
    wanted.write(alloc, &value, room)
}

// Whether the other calls that read fail with this error.
fn are_refused<T: Deserialize>(
    alloc: Global,
    bytes: &[u8],
    error: Asn1DerError,
) -> Result<(), Stop> {
    is_refused("from_bytes", by_from_bytes::<T>(alloc, bytes), error)?;
    is_refused("from_reader", by_from_reader::<T>(alloc, bytes), error)
}

fn is_refused<T: Drop>(
    call: &'static str,
    came: DerResult<T>,
    error: Asn1DerError,
) -> Result<(), Stop> {
    match came {
        Err(came) if came == error => Ok(()),
        Err(OutOfMemory) => Err(Stop::Refused(call)),
        _ => Err(Stop::Wrong(call)),
    }
}

/// Whether this call returned a value that is equal to this one.
pub(crate) fn is<T: PartialEq + Drop>(
    call: &'static str,
    came: DerResult<T>,
    value: &T,
) -> Result<(), Stop> {
    match came {
        Ok(came) if came == *value => Ok(()),
        Err(OutOfMemory) => Err(Stop::Refused(call)),
        _ => Err(Stop::Wrong(call)),
    }
}

// The value, and how many bytes were consumed; or why the bytes are refused, unless an allocation failed. A
// deserializer whose allocation failed returns the error again, and consumes nothing.
fn deserialized<T: Deserialize>(
    alloc: Global,
    bytes: &[u8],
) -> Result<DerResult<(T, usize)>, Stop> {
    let mut de = Deserializer::new_from_bytes(alloc, bytes);
    let outcome = T::deserialize(&mut de);
    let taken = de.taken();
    match outcome {
        Ok(value) => Ok(Ok((value, taken))),
        Err(OutOfMemory) => {
            let again = de.deserialize_bool();
            if again == Err(OutOfMemory) && de.taken() == taken {
                return Err(Stop::Refused("deserialize"));
            }
            Err(Stop::Wrong("deserialize_bool"))
        }
        Err(error) => Ok(Err(error)),
    }
}

// An element is skipped without an allocation.
fn skip(alloc: Global, bytes: &[u8], taken: usize) -> Result<(), Stop> {
    let mut de = Deserializer::new_from_bytes(alloc, bytes);
    if de.deserialize_ignored_any() == Ok(()) && de.taken() == taken {
        return Ok(());
    }
    Err(Stop::Wrong("deserialize_ignored_any"))
}

/// Writes the value by each call that writes.
pub(crate) fn write<T: Serialize>(alloc: Global, value: &T) -> Result<String, AllocError> {
    let mut room = vec![in alloc; OLD; 2]?;
    let outcome = match to_vec(alloc, value) {
        Ok(bytes) => {
            let wanted = Wanted {
                encoding: &bytes,
                outcome: Ok(bytes.len()),
            };
            wanted.write(alloc, value, &mut room)
        }
        Err(OutOfMemory) => Err(Stop::Refused("to_vec")),
        Err(error) => {
            let wanted = Wanted {
                encoding: &[],
                outcome: Err(error),
            };
            wanted.write(alloc, value, &mut room)
        }
    };
    answer(alloc, outcome)
}

/// What each call that writes has to leave and to return.
#[derive(Clone, Copy)]
pub(crate) struct Wanted<'a> {
    /// The bytes, or none if the result is an error.
    pub(crate) encoding: &'a [u8],

    /// The result.
    pub(crate) outcome: DerResult<usize>,
}

impl Wanted<'_> {
    /// Whether this call returned that result and left the bytes. If an allocation failed, it may leave a beginning of
    /// them, and the bytes after that are unchanged.
    pub(crate) fn was_left(
        &self,
        call: &'static str,
        came: DerResult<usize>,
        left: &[u8],
    ) -> Result<(), Stop> {
        let pairs = left.iter().zip(self.encoding);
        let count = pairs.take_while(|(came, wanted)| came == wanted).count();
        let stays = match left.get(count..) {
            Some(rest) => rest.iter().all(|byte| *byte == OLD),
            None => false,
        };
        match came {
            Err(OutOfMemory) if stays => Err(Stop::Refused(call)),
            _ if stays && came == self.outcome && count == self.encoding.len() => Ok(()),
            _ => Err(Stop::Wrong(call)),
        }
    }

    fn write<T: Serialize>(
        &self,
        alloc: Global,
        value: &T,
        room: &mut Vec<u8>,
    ) -> Result<(), Stop> {
        match to_vec(alloc, value) {
            Ok(bytes) => self.was_left("to_vec", Ok(bytes.len()), &bytes)?,
            Err(error) => self.was_left("to_vec", Err(error), &[])?,
        }
        let outcome = to_byte_buf(alloc, value, room);
        self.was_left("to_byte_buf", outcome, room)?;
        room.fill(OLD);
        let outcome = to_bytes(alloc, value, room);
        self.was_left("to_bytes", outcome, room)?;
        room.fill(OLD);
        let mut sink = SliceSink::new(room);
        let outcome = to_writer(alloc, value, &mut sink);
        self.was_left("to_writer", outcome, sink.into_inner())?;
        self.serialize(alloc, value, room)
    }

    // A serializer that failed returns its error again, and writes nothing.
    fn serialize<T: Serialize>(
        &self,
        alloc: Global,
        value: &T,
        room: &mut [u8],
    ) -> Result<(), Stop> {
        room.fill(OLD);
        let mut ser = Serializer::new_to_bytes(alloc, room);
        let outcome = value.serialize(&mut ser);
        let again = match outcome {
            Ok(count) => Ok(count),
            Err(_) => ser.serialize_unit(),
        };
        if again != outcome {
            return Err(Stop::Wrong("serialize_unit"));
        }
        self.was_left("serialize", outcome, ser.into_writer().into_inner())
    }
}
