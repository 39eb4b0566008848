//! What values print as, and how they are ordered.

use crate::outcomes::decoded;
use der_types::{
    BitString, BmpString, Enumerated, GeneralizedTime, Ia5String, InRange, Integer, NamedBits,
    ObjectIdentifier, OtherThan, PrintableString, RelativeOid, Time, UtcTime, WithSize,
};
use picky_der_de::Deserialize;
use std::alloc::{AllocError, Global};
use std::cmp::Ordering;
use std::fmt::{Debug, Display};
use std::hash::Hash;

/// What the value of this type prints as that these bytes encode.
pub(crate) fn print(alloc: Global, row: &str) -> Result<String, AllocError> {
    let (name, bytes) = row.split_once(' ').unwrap_or((row, ""));
    match name {
        "Integer" => printed::<Integer>(alloc, bytes),
        "Enumerated" => printed::<Enumerated>(alloc, bytes),
        "ObjectIdentifier" => printed::<ObjectIdentifier>(alloc, bytes),
        "RelativeOid" => printed::<RelativeOid>(alloc, bytes),
        "BitString" => printed::<BitString>(alloc, bytes),
        "NamedBits" => printed::<NamedBits>(alloc, bytes),
        "UtcTime" => printed::<UtcTime>(alloc, bytes),
        "GeneralizedTime" => printed::<GeneralizedTime>(alloc, bytes),
        "Time" => printed::<Time>(alloc, bytes),
        _ => print_string(alloc, name, bytes),
    }
}

fn print_string(alloc: Global, name: &str, bytes: &str) -> Result<String, AllocError> {
    match name {
        "PrintableString" => printed::<PrintableString>(alloc, bytes),
        "Ia5String" => printed::<Ia5String>(alloc, bytes),
        "BmpString" => printed::<BmpString>(alloc, bytes),
        "WithSize" => printed::<WithSize<PrintableString, 1, 3>>(alloc, bytes),
        "InRange" => printed::<InRange<Integer, 1, 200>>(alloc, bytes),
        "OtherThan" => printed::<OtherThan<Integer, 0>>(alloc, bytes),
        _ => String::from_str(alloc, name),
    }
}

// The text of a copy, the text for debugging, and whether the copy is equal. Each type that is tried has these traits.
fn printed<T: Deserialize + Clone + Ord + Hash + Display + Debug>(
    alloc: Global,
    bytes: &str,
) -> Result<String, AllocError> {
    match decoded::<T>(alloc, bytes)? {
        Ok(value) => {
            let copy = value.clone()?;
            let is_same = copy == value;
            format!(in alloc; "{copy} {value:?} {is_same}")
        }
        Err(error) => Ok(error),
    }
}

/// How two INTEGERs are ordered.
pub(crate) fn compare(alloc: Global, row: &str) -> Result<String, AllocError> {
    let Some((first, second)) = row.split_once(", ") else {
        return String::from_str(alloc, "no integers");
    };
    let first = match decoded::<Integer>(alloc, first)? {
        Ok(integer) => integer,
        Err(error) => return Ok(error),
    };
    let second = match decoded::<Integer>(alloc, second)? {
        Ok(integer) => integer,
        Err(error) => return Ok(error),
    };
    let sign = match first.cmp(&second) {
        Ordering::Less => "less",
        Ordering::Equal => "equal",
        Ordering::Greater => "greater",
    };
    String::from_str(alloc, sign)
}
