//! What a line asks for.
ghost use Rattle.std.specs.Prelude.{◌≡◌, ◌≢◌, MatchOption};
ghost use Rattle.picky_der_core.specs.Equality.{IsKept};
ghost use Rattle.der_tool_lib.specs.Line.{query_of, word_for, Asks, AsksTyped, IsNumberOf};

use crate::ValueType;
use der_program_base::{after, first_word};
use itoa::Buffer;

/// What a line asks for.
#[derive(Debug, Clone, Copy, PartialEq, Eq)]
pub enum Request<'a> {
    /// The encoding of this length.
    Len(usize),

    /// A value of this type, read from bytes. The bytes should be two hexadecimal digits each.
    Read(ValueType, &'a [u8]),

    /// Nothing that the tool knows.
    Refused,
}

impl<'a> Request<'a> {
    /// A copy is the same request.
    pub fn copies()
        ensures { IsKept ⟦<Request<'a> as Clone>⟧.is_clone (λ request. request) }
    {}

    /// Returns what the line asks for. The line is without the byte that ends it.
    ///
    /// Words are separated by exactly one space, and no space is dropped.
    pub fn of(line: &'a [u8]) -> Request<'a>
        ensures { Asks line.now (query_of result) }
    {
        if let Some(digits) = after(line, b"len ") {
            return match number(digits) {
                Some(n) => Request::Len(n),
                None => Request::Refused,
            };
        }
        match after(line, b"read ") {
            Some(words) => typed(words),
            None => Request::Refused,
        }
    }
}

// The request of a type's word, a space and digits.
fn typed(words: &[u8]) -> Request<'_>
    ensures { AsksTyped words.now (query_of result) }
{
    let Some((word, digits)) = first_word(words) else {
        return Request::Refused;
    };
    match type_of(word) {
        Some(value_type) => Request::Read(value_type, digits),
        None => Request::Refused,
    }
}

// The type that this word names.
fn type_of(word: &[u8]) -> Option<ValueType>
    ensures { MatchOption result ((type : ValueType) → word.now ≢ word_for type)
        (λ type. word.now ≡ word_for type) }
{
    match word {
        b"bool" => Some(ValueType::Bool),
        b"u8" => Some(ValueType::U8),
        b"u16" => Some(ValueType::U16),
        b"u32" => Some(ValueType::U32),
        b"u64" => Some(ValueType::U64),
        b"u128" => Some(ValueType::U128),
        b"null" => Some(ValueType::Null),
        b"char" => Some(ValueType::Char),
        b"text" => Some(ValueType::Text),
        b"octets" => Some(ValueType::Octets),
        b"raw" => Some(ValueType::Raw),
        b"test" => Some(ValueType::Test),
        b"spki" => Some(ValueType::Spki),
        _ => None,
    }
}

// The number of these digits. Only the digits that would print it are accepted: no sign and no leading 0.
fn number(digits: &[u8]) -> Option<usize>
    ensures { IsNumberOf digits.now result }
{
    let Ok(text) = str::from_utf8(digits) else {
        return None;
    };
    let Ok(n) = text.parse() else {
        return None;
    };
    if Buffer::new().format(n).as_bytes() == digits {
        Some(n)
    } else {
        None
    }
}
