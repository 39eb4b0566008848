//! Character sets of the string types.
ghost use Rattle.std.specs.Prelude.{◌≡◌, ◌<◌, ◌^◌, ◌*◌, ℕ, Bool, true};
ghost use Rattle.std.specs.Char.{IsScalar};
ghost use Rattle.picky_der_core.specs.Tag.{number_of, IsTagNumber};
ghost use Rattle.der_types.specs.declared.width.Width.{Width};
ghost use Rattle.der_types.specs.CharacterStrings.{byte_count};

use crate::Width;

/// The characters of a string type, by their numbers, and how they are encoded. For each set there is the type
/// `RestrictedString<S>`.
///
/// A set of your own is a permitted alphabet (X.680, 51.7). It has the tag and the width of the type that it restricts.
pub trait CharacterSet {
    // The tag byte, how many bytes a character has, and which numbers are characters.
    ghost TAG: { ℕ };

    ghost WIDTH: { Width };

    ghost is_character: { ℕ → Bool };

    /// The tag byte. Its number is at most 30.
    const TAG: u8;

    /// How many bytes each character has.
    const WIDTH: Width;

    /// Returns whether the character with this number is in the set.
    fn is_character(code: u32) -> bool
        ensures { result ≡ is_character code };

    // The tag's number fits one byte.
    ghost short: { IsTagNumber (number_of TAG) };

    // The number of each character fits its bytes.
    ghost narrow: { (c : ℕ) → is_character c ≡ true → c < 2 ^ (8 * byte_count WIDTH) };
}

/// A set whose characters are Unicode characters with the same numbers.
pub trait Unicode: CharacterSet {
    // The number of each character is a Unicode scalar value.
    ghost scalar: { (c : ℕ) → Self.is_character c ≡ true → IsScalar c };
}

/// A set of ASCII characters, with one byte for each character.
pub trait Ascii: Unicode {
    // A character has one byte.
    ghost one_byte: { Self.WIDTH ≡ Width.One };

    // Each character is an ASCII character.
    ghost ascii: { (c : ℕ) → Self.is_character c ≡ true → c < 0x80 };
}
