//! Bit strings as texts.
ghost use Rattle.std.specs.Prelude.{◌≡◌, ◌≤◌, true};
ghost use Rattle.der_types.specs.BitString.{is_bit_string};

use crate::bits::byte_bit;
use crate::{BitString, NamedBits};
use std::fmt;

// Writes the highest `count` bits of a byte.
fn write_byte<W: fmt::Write>(byte: u8, count: u8, f: &mut fmt::Formatter<W>) -> fmt::Result
    requires { count ≤ 8 }
{
    for place in 0..count {
        f.write_char(if byte_bit(byte, place) { '1' } else { '0' })?;
    }
    Ok(())
}

// Writes the bits of a content, as `'1011'B` (X.680, 12.10).
fn write_bits<W: fmt::Write>(content: &[u8], f: &mut fmt::Formatter<W>) -> fmt::Result
    requires { is_bit_string content.now ≡ true }
{
    f.write_char('\'')?;
    if let [unused, whole @ .., last] = content {
        for byte in whole {
            write_byte(*byte, 8, f)?;
        }
        write_byte(*last, 8 - *unused, f)?;
    }
    f.write_str("'B")
}

/// It prints as its bits, as `'1011'B`.
impl fmt::Display for BitString {
    fn fmt<W: fmt::Write>(&self, f: &mut fmt::Formatter<W>) -> fmt::Result {
        write_bits(&self.content, f)
    }
}

/// It prints as its bits, as `'1011'B`.
impl fmt::Display for NamedBits {
    fn fmt<W: fmt::Write>(&self, f: &mut fmt::Formatter<W>) -> fmt::Result {
        write_bits(&self.content, f)
    }
}
