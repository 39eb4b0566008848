//! Messages that are read and written back, cut short, and changed at one place.

use picky_der_core::Asn1DerError;
use picky_der_de::{DecodeError, Deserialize, from_der};
use picky_der_ser::{Serialize, to_vec};
use std::alloc::{AllocError, Global};

// In longer messages only one bit of each byte is changed, since all bits take too long.
const LONGEST_IN_EACH_BIT: usize = 256;

const BITS: [u8; 8] = [0x01, 0x02, 0x04, 0x08, 0x10, 0x20, 0x40, 0x80];

/// What is done with a message.
#[derive(Clone, Copy)]
pub(crate) enum Task {
    /// It is read and written back.
    Read,
    /// The same, with its prefixes and its changes.
    Try,
}

/// The result of bytes of a type.
pub(crate) fn result_as<T: Deserialize + Clone>(
    alloc: Global,
    task: Task,
    bytes: &[u8],
) -> Result<String, AllocError> {
    match task {
        Task::Read => read::<T>(alloc, bytes),
        Task::Try => tried::<T>(alloc, bytes),
    }
}

// What `from_der` returns. It is compiled once for each type, and not again at each call.
#[inline(never)]
fn decoded<T: Deserialize>(alloc: Global, bytes: &[u8]) -> Result<T, DecodeError> {
    from_der(alloc, bytes)
}

// Reads a value and checks that it is written as the same bytes, and a copy, too. For a refusal it says how many bytes
// were consumed.
fn read<T: Deserialize + Clone>(alloc: Global, bytes: &[u8]) -> Result<String, AllocError> {
    match decoded::<T>(alloc, bytes) {
        Ok(value) if is_written_as(alloc, &value, bytes) => {
            let copy = value.clone()?;
            if copy == value && is_written_as(alloc, &copy, bytes) {
                format!(in alloc; "same {} bytes", bytes.len())
            } else {
                String::from_str(alloc, "another copy")
            }
        }
        Ok(_) => String::from_str(alloc, "other bytes"),
        Err(refusal) => format!(in alloc; "refused {} at {}", refusal.error, refusal.position),
    }
}

// Whether a value is written as these bytes. It is compiled once for each type, too.
#[inline(never)]
fn is_written_as<T: Serialize>(alloc: Global, value: &T, bytes: &[u8]) -> bool {
    match to_vec(alloc, value) {
        Ok(written) => written.as_slice() == bytes,
        Err(_) => false,
    }
}

// Where a prefix or a change isn't handled correctly.
enum Wrong {
    // The prefix of this length isn't reported as cut short.
    Front(usize),
    // With this byte at this place, a value is read that is written as other bytes.
    Change(usize, u8),
    // An allocation failed.
    Memory,
}

impl From<AllocError> for Wrong {
    fn from(_: AllocError) -> Wrong {
        Wrong::Memory
    }
}

// Reads the whole message. Then each prefix must be refused as cut short, and each change must be refused or be the
// encoding of another value.
fn tried<T: Deserialize + Clone>(alloc: Global, bytes: &[u8]) -> Result<String, AllocError> {
    let whole = read::<T>(alloc, bytes)?;
    match try_fronts::<T>(alloc, bytes).and_then(|_| try_changes::<T>(alloc, bytes)) {
        Ok(()) => format!(in alloc; "{whole}, and its fronts and changes"),
        Err(Wrong::Front(len)) => format!(in alloc; "{whole}, but not the front of {len} bytes"),
        Err(Wrong::Change(place, byte)) => {
            format!(in alloc; "{whole}, but not with {byte} at {place}")
        }
        Err(Wrong::Memory) => Err(AllocError),
    }
}

// Each prefix is refused as cut short.
fn try_fronts<T: Deserialize>(alloc: Global, bytes: &[u8]) -> Result<(), Wrong> {
    for len in 0..bytes.len() {
        match decoded::<T>(alloc, &bytes[..len]) {
            Err(refusal) if refusal.error == Asn1DerError::TruncatedData => {}
            _ => return Err(Wrong::Front(len)),
        }
    }
    Ok(())
}

// Changes each bit of each byte in turn, or in longer messages a different bit in each byte.
fn try_changes<T: Deserialize>(alloc: Global, bytes: &[u8]) -> Result<(), Wrong> {
    for place in 0..bytes.len() {
        if bytes.len() <= LONGEST_IN_EACH_BIT {
            try_bits::<T>(alloc, bytes, place, &BITS)?;
        } else {
            let bit = place % 8;
            try_bits::<T>(alloc, bytes, place, &BITS[bit..=bit])?;
        }
    }
    Ok(())
}

fn try_bits<T: Deserialize>(
    alloc: Global,
    bytes: &[u8],
    place: usize,
    bits: &[u8],
) -> Result<(), Wrong> {
    let original = match bytes.get(place) {
        Some(byte) => *byte,
        None => return Ok(()),
    };
    let mut changed = Vec::from_slice(alloc, bytes)?;
    for bit in bits {
        let byte = original ^ *bit;
        if let Some(changing) = changed.get_mut(place) {
            *changing = byte;
        }
        if let Ok(value) = decoded::<T>(alloc, &changed) {
            if !is_written_as(alloc, &value, &changed) {
                return Err(Wrong::Change(place, byte));
            }
        }
    }
    Ok(())
}
