//! What is read and written, as text.

use der_fixtures::{bytes_of, text_of};
use picky_der_de::{Deserialize, from_der};
use picky_der_ser::{Serialize, to_vec};
use std::alloc::{AllocError, Global};
use std::fmt::Display;

/// The encoding in hexadecimal, or the error.
pub(crate) fn written<T: Serialize>(alloc: Global, value: &T) -> Result<String, AllocError> {
    match to_vec(alloc, value) {
        Ok(bytes) => text_of(alloc, &bytes),
        Err(error) => format!(in alloc; "{error}"),
    }
}

/// The same for a value that was made, or the error if none was.
pub(crate) fn made<T: Serialize + Drop, E: Display + Drop>(
    alloc: Global,
    outcome: Result<T, E>,
) -> Result<String, AllocError> {
    match outcome {
        Ok(value) => written(alloc, &value),
        Err(error) => format!(in alloc; "{error}"),
    }
}

/// The value that these hexadecimal bytes encode, or the error as a text.
pub(crate) fn decoded<T: Deserialize>(
    alloc: Global,
    text: &str,
) -> Result<Result<T, String>, AllocError> {
    let bytes = match bytes_of(alloc, text) {
        Ok(bytes) => bytes,
        Err(error) => return Ok(Err(format!(in alloc; "{error}")?)),
    };
    match from_der::<T>(alloc, &bytes) {
        Ok(value) => Ok(Ok(value)),
        Err(refusal) => Ok(Err(format!(in alloc; "{}", refusal.error)?)),
    }
}

/// The encoding of the value that these hexadecimal bytes encode, or the error.
pub(crate) fn again<T: Deserialize>(alloc: Global, text: &str) -> Result<String, AllocError> {
    match decoded::<T>(alloc, text)? {
        Ok(value) => written(alloc, &value),
        Err(error) => Ok(error),
    }
}

/// A type whose values have a text.
pub(crate) trait Shown: Deserialize {
    /// This text.
    fn shown(&self, alloc: Global) -> Result<String, AllocError>;
}

/// The text of the value that these hexadecimal bytes encode, or this word and the error.
pub(crate) fn read<T: Shown>(
    alloc: Global,
    refused: &str,
    text: &str,
) -> Result<String, AllocError> {
    match decoded::<T>(alloc, text)? {
        Ok(value) => value.shown(alloc),
        Err(error) => format!(in alloc; "{refused}{error}"),
    }
}
