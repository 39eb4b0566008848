//! What an input is, and which of its bytes are messages.
ghost use Rattle.std.specs.Prelude.{◌≡◌, ◌↔◌, ◌∷◌, IfOk, IsTrue};
ghost use Rattle.picky_der_core.specs.Element.{IsElement};
ghost use Rattle.der_program_base.specs.Contents.{IsContentsOf, IsReadAsText, IsText, is_text_character};
ghost use Rattle.der_program_base.specs.Lines.{texts, lines_of};

use crate::blocks::blocks_of;
use crate::guess::{guess_of, has_mark};
use crate::{Blocks, Guess};
use picky_der_core::asn1::Tag;
use picky_der_core::misc::Length;
use std::alloc::{AllocError, Global};

/// A form in which messages are asked for.
#[derive(Clone, Copy, Debug)]
pub enum Form {
    /// The whole input is one message.
    Der,
    /// The messages are in blocks of PEM.
    Pem,
}

/// What an input is.
#[derive(Debug, Drop)]
pub enum Contents {
    /// The whole input is one message, in DER or to be refused as such.
    Der,
    /// A text with blocks of PEM, at least one.
    Pem(Blocks),
    /// A text without blocks, or with a byte order mark before it.
    Other(Guess),
}

/// Returns what an input is. If a form was asked for, it decides whether the input is DER or a text. Otherwise an input
/// that is one element to its end is DER, whatever is in it, and so is an input that isn't text. The only error is a
/// failed allocation.
///
/// Text is UTF-8 whose only control characters are tab, line feed, form feed and carriage return. Its lines end with
/// line feed or carriage return. Blocks may have any label, and a faulty block is a block, too (RFC 7468, 2 and 3).
pub fn contents_of(alloc: Global, input: &[u8], form: Option<Form>) -> Result<Contents, AllocError>
    ensures { IfOk result (IsContentsOf form input.now) }
{
    if !is_read_as_text(input, form) {
        return Ok(Contents::Der);
    }
    if has_mark(input) {
        return Ok(Contents::Other(Guess::ByteOrderMark));
    }
    let lines = lines_of(alloc, input)?;
    let blocks = blocks_of(alloc, &lines)?;
    if blocks.blocks.is_empty() {
        let guess = guess_of(alloc, input, &lines)?;
        return Ok(Contents::Other(guess));
    }
    Ok(Contents::Pem(blocks))
}

fn is_read_as_text(input: &[u8], form: Option<Form>) -> bool
    ensures { IsTrue result ↔ IsReadAsText form input.now }
{
    match form {
        Some(Form::Der) => false,
        Some(Form::Pem) => true,
        None => !is_element(input) && is_text(input),
    }
}

// Whether an input is one element to its end.
fn is_element(input: &[u8]) -> bool
    ensures { IsTrue result ↔ IsElement input.now }
{
    match input {
        [tag, after @ ..] => is_whole_element(Tag::from(*tag), after),
        [] => false,
    }
}

// Whether a tag and what follows it are one element to its end.
fn is_whole_element(tag: Tag, after: &[u8]) -> bool
    ensures { IsTrue result ↔ IsElement (tag ∷ after.now) }
{
    if tag.number() > Tag::MAX_NUMBER {
        return false;
    }
    let mut content = after;
    match Length::deserialized(&mut content) {
        Ok(length) => content.len() == length,
        Err(_) => false,
    }
}

fn is_text(input: &[u8]) -> bool
    ensures { IsTrue result ↔ IsText input.now }
{
    match str::from_utf8(input) {
        Ok(text) => text.chars().all(|character| is_text_character(character)),
        Err(_) => false,
    }
}

// Whether a character may be in a text.
fn is_text_character(character: char) -> bool
    ensures { result ≡ is_text_character character }
{
    !character.is_control() || matches!(character, '\t' | '\n' | '\x0C' | '\r')
}

// The lines of a text.
fn lines_of(alloc: Global, input: &[u8]) -> Result<Vec<&[u8]>, AllocError>
    ensures { IfOk result (λ lines. texts lines.items ≡ lines_of input.now) }
{
    input
        .split(|byte| *byte == b'\n' || *byte == b'\r')
        .collect(alloc)
}
