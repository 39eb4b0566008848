//! Text on one line.
ghost use Rattle.std.specs.Prelude.{◌≡◌, ◌<◌, false, List, ℕ, [], ◌++◌, IfSome, OnOk, string_bytes};
ghost use Rattle.std.specs.Char.{encode_utf8};
ghost use Rattle.std.specs.List.{flat_map};
ghost use Rattle.std.specs.Str.{IsUtf8};
ghost use Rattle.der_program_base.specs.Line.{is_disruptive, IsOneLine, hexadecimal_digit, hexadecimal, two_digits};
ghost use Rattle.der_program_base.specs.Line.{escaped_byte, shown_character, shown};

use std::alloc::{AllocError, Global};
use std::fmt::{self, Display, Write};
use std::marker::Model;

/// A text without characters that end a line, or that move or hide other characters: control characters, U+061C, U+200B
/// to U+200F, U+2028 to U+202E, U+2060 to U+2069, and U+FEFF.
///
/// If such a character is appended, the bytes of its UTF-8 are written, each as a backslash and two hexadecimal digits.
#[derive(Drop)]
pub struct Line {
    text: String,
}

impl Model for Line {
    ghost Value = { List ℕ };

    ghost view = { λ line. string_bytes line.text };

    ghost invariant = { λ line. IsOneLine (string_bytes line.text) };
}

impl Line {
    /// Returns an empty line.
    pub fn new(alloc: Global) -> Line
        ensures { result ≡ [] }
    {
        Line {
            text: String::new(alloc),
        }
    }

    /// Appends a character. The only error is a failed allocation.
    pub fn push(&mut self, character: char) -> Result<(), AllocError>
        ensures { OnOk result (self.new ≡ self.old ++ shown_character character) }
    {
        if !is_disruptive(character) {
            return self.push_visible(character);
        }
        let mut buffer = [0; 4];
        self.push_escaped(character.encode_utf8(&mut buffer).as_bytes())
    }

    /// Appends a text. If an allocation fails, a beginning of the text was appended.
    pub fn push_str(&mut self, text: &str) -> Result<(), AllocError>
        ensures shown { OnOk result (self.new ≡ self.old ++ shown text.now) }
        ensures utf8 { IsUtf8 text.now }
    {
        for character in text.chars() {
            self.push(character)?;
        }
        Ok(())
    }

    /// Appends two hexadecimal digits for each byte, in upper case. If an allocation fails, a beginning of them was
    /// appended.
    pub fn push_hexadecimal(&mut self, bytes: &[u8]) -> Result<(), AllocError>
        ensures { OnOk result (self.new ≡ self.old ++ hexadecimal bytes.now) }
    {
        for byte in bytes {
            self.push_digits(*byte)?;
        }
        Ok(())
    }

    /// Appends formatted text; `write!` calls it. Only an allocation can fail in it.
    pub fn write_fmt<D: Display + Drop>(&mut self, value: D) -> Result<(), AllocError>
        ensures { OnOk result (IfSome (D.output value) (λ text. self.new ≡ self.old ++ shown text)) }
    {
        match Write::write_fmt(self, value) {
            Ok(()) => Ok(()),
            Err(_) => Err(AllocError),
        }
    }

    /// Returns the text, which is one line.
    pub fn into_string(self) -> String
        ensures text { string_bytes result ≡ self }
        ensures one_line { IsOneLine (string_bytes result) }
    {
        self.text
    }

    fn push_visible(&mut self, character: char) -> Result<(), AllocError>
        requires { is_disruptive character ≡ false }
        ensures { OnOk result (self.new ≡ self.old ++ encode_utf8 character) }
    {
        self.text.push(character)
    }

    // Appends bytes, each as a backslash and two digits.
    fn push_escaped(&mut self, bytes: &[u8]) -> Result<(), AllocError>
        ensures { OnOk result (self.new ≡ self.old ++ flat_map escaped_byte bytes.now) }
    {
        for byte in bytes {
            self.push_visible('\\')?;
            self.push_digits(*byte)?;
        }
        Ok(())
    }

    // Appends the two digits of a byte.
    fn push_digits(&mut self, byte: u8) -> Result<(), AllocError>
        ensures { OnOk result (self.new ≡ self.old ++ two_digits byte) }
    {
        self.push_visible(hexadecimal_digit(byte / 16))?;
        self.push_visible(hexadecimal_digit(byte % 16))
    }
}

impl Write for Line {
    ghost write_str_gives = { λ old text new. IsUtf8 text × (new ≡ old ++ shown text) };

    fn write_str(&mut self, text: &str) -> fmt::Result {
        self.push_str(text)?;
        Ok(())
    }
}

// Whether a character ends a line, or moves or hides other characters.
#[tactic(auto, using(std::proofs::lemmas::Bool::Decides::nat_tests), unfolding(crate::specs::Line::is_disruptive))]
pub(crate) fn is_disruptive(character: char) -> bool
    ensures { result ≡ is_disruptive character }
{
    character.is_control()
        || matches!(
            character,
            '\u{61C}'
                | '\u{200B}'..='\u{200F}'
                | '\u{2028}'..='\u{202E}'
                | '\u{2060}'..='\u{2069}'
                | '\u{FEFF}'
        )
}

// The hexadecimal digit of a number below 16, in upper case.
fn hexadecimal_digit(number: u8) -> char
    requires { number < 16 }
    ensures value { result ≡ hexadecimal_digit number }
    ensures visible { is_disruptive result ≡ false }
{
    match number {
        0..=9 => char::from(b'0' + number),
        _ => char::from(b'A' + (number - 10)),
    }
}
