//! Characters and their bytes.
ghost use Rattle.std.specs.Prelude.{◌≡◌, ◌<◌, ◌+◌, ◌*◌, ◌^◌, ◌++◌, ◌∷◌, length, OnOk, IfOk, IfSome, OnSome, IfNone};
ghost use Rattle.std.specs.Prelude.{true, false, chars};
ghost use Rattle.std.specs.List.{list_all};
ghost use Rattle.std.specs.Char.{IsScalar};
ghost use Rattle.der_types.specs.CharacterStrings.{byte_count, character_bytes, characters, string_content};
ghost use Rattle.der_types.specs.CharacterStrings.{is_string_content};

use crate::{CharacterSet, Width};
use std::alloc::{AllocError, Global};

// Returns the number of the first character and the bytes after it, or `None` if there are too few bytes.
pub(crate) fn split_character(width: Width, bytes: &[u8]) -> Option<(u32, &[u8])>
    ensures first { IfSome result (λ pair. characters width bytes.now
        ≡ pair.0 ∷ characters width pair.1.now) }
    ensures rest { IfSome result (λ pair. length bytes.now
        ≡ byte_count width + length pair.1.now) }
    ensures none { IfNone result (length bytes.now < byte_count width) }
{
    match width {
        Width::One => match bytes {
            [a, rest @ ..] => Some((u32::from(*a), rest)),
            _ => None,
        },
        Width::Two => match bytes {
            [a, b, rest @ ..] => Some((u32::from(*a) * 256 + u32::from(*b), rest)),
            _ => None,
        },
        Width::Four => match bytes {
            [a, b, c, d, rest @ ..] => Some((u32::from_be_bytes([*a, *b, *c, *d]), rest)),
            _ => None,
        },
    }
}

// Appends the bytes of the character with this number.
pub(crate) fn push_character(bytes: &mut Vec<u8>, width: Width, code: u32) -> Result<(), AllocError>
    requires { code < 2 ^ (8 * byte_count width) }
    ensures { OnOk result (bytes.new.items ≡ bytes.old.items ++ character_bytes width code) }
{
    match width {
        Width::One => bytes.push(code as u8)?,
        Width::Two => bytes.extend_from_slice(&[(code / 256) as u8, (code % 256) as u8])?,
        Width::Four => bytes.extend_from_slice(&code.to_be_bytes())?,
    }
    Ok(())
}

// How many characters the bytes hold.
pub(crate) fn count_of(width: Width, bytes: &[u8]) -> usize
    ensures { result ≡ length (characters width bytes.now) }
{
    match width {
        Width::One => bytes.len(),
        Width::Two => bytes.len() / 2,
        Width::Four => bytes.len() / 4,
    }
}

// Whether the bytes are a whole number of characters, all in the set.
pub(crate) fn is_content<S: CharacterSet>(bytes: &[u8]) -> bool
    ensures { result ≡ is_string_content S.WIDTH S.is_character bytes.now }
{
    let width = S::WIDTH;
    let mut rest = bytes;
    while let Some((code, after)) = split_character(width, rest) {
        if !S::is_character(code) {
            return false;
        }
        rest = after;
    }
    rest.is_empty()
}

// The character with this number.
pub(crate) fn char_of(code: u32) -> char
    requires { IsScalar code }
    ensures { result ≡ code }
{
    match char::from_u32(code) {
        Some(character) => character,
        None => unreachable!(),
    }
}

// Returns the content that encodes a text, or `None` if a character of the text isn't in the set.
pub(crate) fn content_of<S: CharacterSet>(
    alloc: Global,
    text: &str,
) -> Result<Option<Vec<u8>>, AllocError>
    ensures some { IfOk result (λ found. IfSome found (λ content. content.items
        ≡ string_content S.WIDTH (chars text.now))) }
    ensures each { IfOk result (λ found. OnSome found
        (list_all S.is_character (chars text.now) ≡ true)) }
    ensures none { IfOk result (λ found. IfNone found
        (list_all S.is_character (chars text.now) ≡ false)) }
{
    let width = S::WIDTH;
    let mut content = Vec::new(alloc);
    for character in text.chars() {
        let code = character as u32;
        if !S::is_character(code) {
            return Ok(None);
        }
        push_character(&mut content, width, code)?;
    }
    Ok(Some(content))
}
