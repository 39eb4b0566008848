//! Values of one type, where no encoding begins another.

use picky_asn1_der::misc::ReadExt;
use picky_asn1_der::{Deserialize, Deserializer, to_vec};
use std::alloc::{AllocError, Global};

/// How many values the bytes have, one after another, if no encoding begins another.
pub(crate) fn answer<T: Deserialize>(alloc: Global, bytes: &[u8]) -> Result<String, AllocError> {
    match encodings::<T>(alloc, bytes) {
        Ok(encodings) => compared(alloc, &encodings),
        Err(error) => format!(in alloc; "refused {error}"),
    }
}

// The encodings of the values.
fn encodings<T: Deserialize>(alloc: Global, bytes: &[u8]) -> picky_asn1_der::Result<Vec<Vec<u8>>> {
    let mut encodings = Vec::new(alloc);
    let mut de = Deserializer::new_from_bytes(alloc, bytes);
    for _ in 0..bytes.len() {
        if de.taken() == bytes.len() {
            break;
        }
        encodings.push(next_encoding::<T, _>(alloc, &mut de)?)?;
    }
    Ok(encodings)
}

fn compared(alloc: Global, encodings: &[Vec<u8>]) -> Result<String, AllocError> {
    match clash(encodings) {
        Some((shorter, longer)) => format!(in alloc; "{longer} begins with {shorter}"),
        None => {
            let count = encodings.len();
            format!(in alloc; "{count} encodings")
        }
    }
}

// The encoding of the next value.
fn next_encoding<T: Deserialize, R: ReadExt>(
    alloc: Global,
    de: &mut Deserializer<R>,
) -> picky_asn1_der::Result<Vec<u8>> {
    let value = T::deserialize(de)?;
    to_vec(alloc, &value)
}

// The place of an encoding, and of another one that begins with it.
fn clash(encodings: &[Vec<u8>]) -> Option<(usize, usize)> {
    for (place, encoding) in encodings.iter().enumerate() {
        if let Some(other) = beginning_with(encodings, encoding, place) {
            return Some((place, other));
        }
    }
    None
}

// The first encoding at another place that begins with this one.
fn beginning_with(encodings: &[Vec<u8>], front: &[u8], place: usize) -> Option<usize> {
    for (other, encoding) in encodings.iter().enumerate() {
        if other != place && encoding.starts_with(front) {
            return Some(other);
        }
    }
    None
}
