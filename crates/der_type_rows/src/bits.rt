//! Bit strings, and bits with names.

use crate::outcomes::{Shown, decoded, made, written};
use der_fixtures::bytes_of;
use der_types::{BitString, NamedBits};
use std::alloc::{AllocError, Global};

/// The bits of a text of the digits 0 and 1.
pub(crate) fn bits_of(alloc: Global, text: &str) -> Result<Vec<bool>, AllocError> {
    let mut bits = Vec::new(alloc);
    for digit in text.bytes() {
        bits.push(digit == b'1')?;
    }
    Ok(bits)
}

/// The bit string of these bytes, with a number of unused bits, as `4 0A 3B D0`.
pub(crate) fn octets(alloc: Global, text: &str) -> Result<String, AllocError> {
    let (unused, digits) = text.split_once(' ').unwrap_or((text, ""));
    match bytes_of(alloc, digits) {
        Ok(bytes) => {
            let unused = unused.parse().unwrap_or(0);
            made(alloc, BitString::from_bytes(alloc, &bytes, unused))
        }
        Err(error) => format!(in alloc; "{error}"),
    }
}

/// The set of the bits with these numbers.
pub(crate) fn numbered(alloc: Global, text: &str) -> Result<String, AllocError> {
    let mut numbers = Vec::new(alloc);
    for word in text.split(' ') {
        if let Ok(number) = word.parse() {
            numbers.push(number)?;
        }
    }
    made(alloc, NamedBits::of(alloc, &numbers))
}

/// The set that is read, with another value of one bit, as `6 true 03 02 02 04`.
pub(crate) fn changed(alloc: Global, text: &str) -> Result<String, AllocError> {
    let (number, rest) = text.split_once(' ').unwrap_or((text, ""));
    let (value, digits) = rest.split_once(' ').unwrap_or((rest, ""));
    let mut bits = match decoded::<NamedBits>(alloc, digits)? {
        Ok(bits) => bits,
        Err(error) => return Ok(error),
    };
    match bits.set(alloc, number.parse().unwrap_or(0), value == "true") {
        Ok(()) => written(alloc, &bits),
        Err(error) => format!(in alloc; "{error}"),
    }
}

// The number of unused bits, and the digits.
impl Shown for BitString {
    fn shown(&self, alloc: Global) -> Result<String, AllocError> {
        let mut text = String::new(alloc);
        let unused = self.unused();
        write!(text, "{unused} ")?;
        for index in 0..64 {
            match self.bit(index) {
                Some(true) => text.push('1')?,
                Some(false) => text.push('0')?,
                None => break,
            }
        }
        Ok(text)
    }
}

// The numbers of the bits up to 15 that are one.
impl Shown for NamedBits {
    fn shown(&self, alloc: Global) -> Result<String, AllocError> {
        let mut text = String::from_str(alloc, "bits")?;
        for number in 0..16 {
            if self.bit(number) {
                write!(text, " {number}")?;
            }
        }
        Ok(text)
    }
}
