//! Character strings.

use crate::outcomes::{decoded, made};
use der_fixtures::text_of;
use der_types::character_sets::{
    Bmp, General, Ia5, Numeric, Printable, Teletex, Universal, Visible,
};
use der_types::{Ascii, CharacterSet, RestrictedString, Unicode};
use std::alloc::{AllocError, Global};

// The text whose characters have these hexadecimal numbers.
fn text_with(alloc: Global, codes: &str) -> Result<String, AllocError> {
    let mut text = String::new(alloc);
    for code in codes.split_whitespace() {
        let code = u32::from_str_radix(code, 16).unwrap_or(0xFFFD);
        text.push(char::from_u32(code).unwrap_or('\u{FFFD}'))?;
    }
    Ok(text)
}

// The numbers of the characters of a text.
fn codes_of(alloc: Global, text: &str) -> Result<String, AllocError> {
    let mut codes = String::new(alloc);
    for character in text.chars() {
        let code = character as u32;
        write!(codes, " {code:X}")?;
    }
    Ok(codes)
}

// The encoding of the string of the text with these characters, or the error.
fn encoded<S: Unicode>(alloc: Global, codes: &str) -> Result<String, AllocError> {
    let text = text_with(alloc, codes)?;
    made(alloc, RestrictedString::<S>::from_str(alloc, text.as_str()))
}

// A string in numbers: how many characters it has, whether it is empty, and its content. A copy must have the same.
fn known<S: CharacterSet>(
    alloc: Global,
    string: &RestrictedString<S>,
) -> Result<String, AllocError> {
    match string.clone() {
        Ok(copy) => {
            let len = string.len();
            let is_empty = string.is_empty();
            let content = text_of(alloc, copy.as_bytes())?;
            format!(in alloc; "{len} {is_empty} {content}")
        }
        Err(error) => format!(in alloc; "{error}"),
    }
}

// The same for the string that these bytes encode, or the error.
fn counted<S: CharacterSet>(alloc: Global, row: &str) -> Result<String, AllocError> {
    match decoded::<RestrictedString<S>>(alloc, row)? {
        Ok(string) => known(alloc, &string),
        Err(error) => Ok(error),
    }
}

// The number of characters of the string that these bytes encode, and the characters; or the error.
fn spelt<S: Unicode>(alloc: Global, row: &str) -> Result<String, AllocError> {
    match decoded::<RestrictedString<S>>(alloc, row)? {
        Ok(string) => {
            let len = string.len();
            let text = format!(in alloc; "{string}")?;
            let codes = codes_of(alloc, text.as_str())?;
            format!(in alloc; "{len}{codes}")
        }
        Err(error) => Ok(error),
    }
}

// The same, with the text from `as_str`.
fn lent<S: Ascii>(alloc: Global, row: &str) -> Result<String, AllocError> {
    match decoded::<RestrictedString<S>>(alloc, row)? {
        Ok(string) => {
            let len = string.len();
            let codes = codes_of(alloc, string.as_str())?;
            format!(in alloc; "{len}{codes}")
        }
        Err(error) => Ok(error),
    }
}

// The bytes that are a string by themselves.
fn alphabet<S: CharacterSet>(alloc: Global) -> Result<String, AllocError> {
    let mut found = Vec::new(alloc);
    for byte in 0..=255u8 {
        if let Ok(string) = RestrictedString::<S>::from_bytes(alloc, &[byte]) {
            found.extend_from_slice(string.as_bytes())?;
        }
    }
    text_of(alloc, &found)
}

/// The encoding of the string of this type with these characters.
pub(crate) fn text(alloc: Global, row: &str) -> Result<String, AllocError> {
    let (kind, codes) = row.split_once(' ').unwrap_or((row, ""));
    match kind {
        "numeric" => encoded::<Numeric>(alloc, codes),
        "printable" => encoded::<Printable>(alloc, codes),
        "ia5" => encoded::<Ia5>(alloc, codes),
        "visible" => encoded::<Visible>(alloc, codes),
        "universal" => encoded::<Universal>(alloc, codes),
        "bmp" => encoded::<Bmp>(alloc, codes),
        _ => String::from_str(alloc, kind),
    }
}

/// The string of this type that these bytes encode.
pub(crate) fn string(alloc: Global, row: &str) -> Result<String, AllocError> {
    let (kind, bytes) = row.split_once(' ').unwrap_or((row, ""));
    match kind {
        "numeric" => lent::<Numeric>(alloc, bytes),
        "printable" => lent::<Printable>(alloc, bytes),
        "ia5" => spelt::<Ia5>(alloc, bytes),
        "visible" => lent::<Visible>(alloc, bytes),
        "universal" => spelt::<Universal>(alloc, bytes),
        "bmp" => spelt::<Bmp>(alloc, bytes),
        "teletex" => counted::<Teletex>(alloc, bytes),
        "general" => counted::<General>(alloc, bytes),
        _ => String::from_str(alloc, kind),
    }
}

/// The bytes that are characters of this type.
pub(crate) fn characters(alloc: Global, kind: &str) -> Result<String, AllocError> {
    match kind {
        "numeric" => alphabet::<Numeric>(alloc),
        "printable" => alphabet::<Printable>(alloc),
        "ia5" => alphabet::<Ia5>(alloc),
        "visible" => alphabet::<Visible>(alloc),
        "teletex" => alphabet::<Teletex>(alloc),
        "general" => alphabet::<General>(alloc),
        _ => String::from_str(alloc, kind),
    }
}
