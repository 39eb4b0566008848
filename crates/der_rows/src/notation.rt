//! A short notation for what repeats.

use der_fixtures::bytes_of;
use std::alloc::{AllocError, Global};

/// The bytes of a text of hexadecimal digits. `04 82 01 FF 511*00` is 515 bytes.
pub(crate) fn bytes_in(alloc: Global, text: &str) -> Option<Vec<u8>> {
    let digits = expanded(alloc, text).ok()?;
    bytes_of(alloc, digits.as_str()).ok()
}

/// The text with each word `N*PART` replaced by N times `PART`, as `82 3*00` by `82 000000`. Words are separated by
/// spaces.
pub(crate) fn expanded(alloc: Global, text: &str) -> Result<String, AllocError> {
    let mut whole = String::new(alloc);
    for (place, word) in text.split(" ").enumerate() {
        if place > 0 {
            whole.push(' ')?;
        }
        let (count, part) = repeated(word).unwrap_or((1, word));
        push_times(&mut whole, count, part)?;
    }
    Ok(whole)
}

fn repeated(word: &str) -> Option<(usize, &str)> {
    let (count, part) = word.split_once("*")?;
    Some((count.parse().ok()?, part))
}

fn push_times(whole: &mut String, count: usize, part: &str) -> Result<(), AllocError> {
    for _ in 0..count {
        whole.push_str(part)?;
    }
    Ok(())
}
