//! Values within bounds.

use crate::outcomes::{again, decoded, written};
use der_types::{BitString, BmpString, InRange, Integer, WithSize};
use picky_der_core::asn1::{Asn1SequenceOf, Asn1SetOf, ByteBuf};
use std::alloc::{AllocError, Global};

/// A value of two or three characters, bits, bytes or members, or a number from 1 to 200, which these bytes encode.
pub(crate) fn bounded(alloc: Global, row: &str) -> Result<String, AllocError> {
    let (kind, bytes) = row.split_once(' ').unwrap_or((row, ""));
    match kind {
        "bmp" => sized(alloc, bytes),
        "bits" => again::<WithSize<BitString, 2, 3>>(alloc, bytes),
        "octets" => again::<WithSize<ByteBuf, 2, 3>>(alloc, bytes),
        "utf8" => again::<WithSize<String, 2, 3>>(alloc, bytes),
        "vector" => again::<WithSize<Vec<bool>, 2, 3>>(alloc, bytes),
        "sequence" => again::<WithSize<Asn1SequenceOf<bool>, 2, 3>>(alloc, bytes),
        "set" => again::<WithSize<Asn1SetOf<bool>, 2, 3>>(alloc, bytes),
        "u8" => again::<InRange<u8, 1, 200>>(alloc, bytes),
        "u128" => again::<InRange<u128, 1, 200>>(alloc, bytes),
        "integer" => ranged(alloc, bytes),
        _ => String::from_str(alloc, kind),
    }
}

// A text of two or three characters, which is taken out and put in again.
fn sized(alloc: Global, row: &str) -> Result<String, AllocError> {
    match decoded::<WithSize<BmpString, 2, 3>>(alloc, row)? {
        Ok(value) => match WithSize::<BmpString, 2, 3>::new(value.into_inner()) {
            Some(same) => written(alloc, same.get()),
            None => String::from_str(alloc, "none"),
        },
        Err(error) => Ok(error),
    }
}

// The same for a number from 1 to 200.
fn ranged(alloc: Global, row: &str) -> Result<String, AllocError> {
    match decoded::<InRange<Integer, 1, 200>>(alloc, row)? {
        Ok(number) => match InRange::<Integer, 1, 200>::new(number.into_inner()) {
            Some(same) => written(alloc, same.get()),
            None => String::from_str(alloc, "none"),
        },
        Err(error) => Ok(error),
    }
}
