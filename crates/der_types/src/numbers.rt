//! The integer types of Rust, written and read as an INTEGER.
ghost use Rattle.std.specs.Prelude.{IfOk, IfErr};
ghost use Rattle.picky_der_core.specs.Integer.{integer_tree};
ghost use Rattle.picky_der_de.specs.Reading.{ReadsInt, RefusesInt};
ghost use Rattle.picky_der_ser.specs.Calls.{WritesPlain};

use picky_der_core::misc::{ReadExt, WriteExt};
use picky_der_core::{Int, Result};
use picky_der_de::Deserializer;
use picky_der_ser::Serializer;

/// Writes a number as an INTEGER (X.690, 8.3), as `Serializer::serialize_int` does. Its errors are the errors of that
/// function.
pub fn serialize_int<N: Int, W: WriteExt>(
    serializer: &mut Serializer<W>,
    number: N,
) -> Result<usize>
    ensures { WritesPlain W.WriteExt.own (integer_tree (N.number number))
        serializer.old result serializer.new }
{
    serializer.serialize_int(number)
}

/// Reads an INTEGER (X.690, 8.3) as a number of this type, as `Deserializer::deserialize_int` does.
///
/// `InvalidData` if the content isn't the content of an INTEGER, and `UnsupportedValue` if the number doesn't fit the
/// type. In both cases the content has been consumed completely. Every other error is one of
/// `Deserializer::deserialize_int`.
pub fn deserialize_int<N: Int, R: ReadExt>(deserializer: &mut Deserializer<R>) -> Result<N>
    ensures ok { IfOk result (λ n. ReadsInt N.fits deserializer.old deserializer.new
        (N.number n)) }
    ensures err { IfErr result (RefusesInt N.fits deserializer.old deserializer.new) }
{
    deserializer.deserialize_int()
}
