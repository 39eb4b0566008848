//! Texts and bytes of messages on a line. The only error of each function is a failed allocation; then a beginning was
//! appended.
//!
//! The escapes can be undone: different texts of a message are different on a line (`laws::one_text`).
ghost use Rattle.std.specs.Prelude.{◌≡◌, ◌++◌, OnOk, IfOk, string_bytes};
ghost use Rattle.der_program_base.specs.Line.{escaped, escaped_character, shown, is_special_in_names};
ghost use Rattle.der_program_base.specs.Line.{is_special_in_quotes};
ghost use Rattle.der_program_base.specs.Texts.{marked_bytes, text_or_bytes, quoted};

use crate::Line;
use std::alloc::{AllocError, Global};

/// Appends a text. Characters that separate names or begin bytes get a backslash before them, and so does a backslash
/// (RFC 4514, 2.4).
pub fn push_text(line: &mut Line, text: &str) -> Result<(), AllocError>
    ensures { OnOk result (line.new ≡ line.old ++ escaped is_special_in_names text.now) }
{
    for character in text.chars() {
        push_in_name(line, character)?;
    }
    Ok(())
}

/// Appends a text between two single quotes. Such a quote inside gets a backslash before it, and so does a backslash.
pub fn push_quoted(line: &mut Line, text: &str) -> Result<(), AllocError>
    ensures { OnOk result (line.new ≡ line.old ++ quoted text.now) }
{
    line.push('\'')?;
    for character in text.chars() {
        push_in_quotes(line, character)?;
    }
    line.push('\'')
}

/// Appends bytes, as `#` and hexadecimal digits.
pub fn push_bytes(line: &mut Line, bytes: &[u8]) -> Result<(), AllocError>
    ensures { OnOk result (line.new ≡ line.old ++ marked_bytes bytes.now) }
{
    line.push('#')?;
    line.push_hexadecimal(bytes)
}

/// Appends bytes as text if they are UTF-8, and otherwise as bytes.
pub fn push_text_or_bytes(line: &mut Line, bytes: &[u8]) -> Result<(), AllocError>
    ensures { OnOk result (line.new ≡ line.old ++ text_or_bytes bytes.now) }
{
    match str::from_utf8(bytes) {
        Ok(text) => push_text(line, text),
        Err(_) => push_bytes(line, bytes),
    }
}

/// Returns a text on one line, as `Line::push_str` appends it.
pub fn shown(alloc: Global, text: &str) -> Result<String, AllocError>
    ensures { IfOk result (λ line. string_bytes line ≡ shown text.now) }
{
    let mut line = Line::new(alloc);
    line.push_str(text)?;
    Ok(line.into_string())
}

/// Returns bytes as text if they are UTF-8, and otherwise as bytes, as `push_text_or_bytes` appends them.
pub fn text_or_bytes(alloc: Global, bytes: &[u8]) -> Result<String, AllocError>
    ensures { IfOk result (λ text. string_bytes text ≡ text_or_bytes bytes.now) }
{
    let mut line = Line::new(alloc);
    push_text_or_bytes(&mut line, bytes)?;
    Ok(line.into_string())
}

fn push_in_name(line: &mut Line, character: char) -> Result<(), AllocError>
    ensures { OnOk result (line.new ≡ line.old
        ++ escaped_character is_special_in_names character) }
{
    if is_special_in_names(character) {
        line.push('\\')?;
    }
    line.push(character)
}

fn push_in_quotes(line: &mut Line, character: char) -> Result<(), AllocError>
    ensures { OnOk result (line.new ≡ line.old
        ++ escaped_character is_special_in_quotes character) }
{
    if is_special_in_quotes(character) {
        line.push('\\')?;
    }
    line.push(character)
}

// Whether a character separates names, begins bytes or is a backslash.
#[tactic(auto, unfolding(crate::specs::Line::is_special_in_names))]
fn is_special_in_names(character: char) -> bool
    ensures { result ≡ is_special_in_names character }
{
    matches!(
        character,
        '"' | '#' | '+' | ',' | ';' | '<' | '=' | '>' | '\\'
    )
}

// Whether a character is the quote around a text or a backslash.
#[tactic(auto, unfolding(crate::specs::Line::is_special_in_quotes))]
fn is_special_in_quotes(character: char) -> bool
    ensures { result ≡ is_special_in_quotes character }
{
    matches!(character, '\'' | '\\')
}
