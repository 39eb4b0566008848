//! Types that are read as values of another type.
ghost use Rattle.std.specs.Prelude.{◌≡◌, IfOk, IfErr};
ghost use Rattle.picky_der_de.specs.Reading.{Reads, Refuses};
ghost use Rattle.picky_der_de.specs.RefusesBy.{RefusesBy};
ghost use Rattle.picky_der_de.specs.Rules.{tested_rule};
ghost use Rattle.picky_der_de.specs.Twins.{IsNoValue};

use crate::{Deserialize, Deserializer};
use picky_der_core::Result;
use picky_der_core::misc::ReadExt;

/// A type that is decoded as another type, its twin, and converted: a struct, for example, as the tuple of its fields.
///
/// Each value of the twin has to be a value of the type. Else implement `TryVia`.
pub trait Via: Sized {
    /// The twin.
    type As: Deserialize;

    // The value of the twin for this value.
    ghost parts: { Self → Self.As };

    /// The value for this value of the twin.
    fn from_parts(value: Self::As) -> Self
        ensures { parts result ≡ value };
}

/// Reads a value of the twin and converts it. It is the whole body of `Deserialize::deserialize` of such a type.
///
/// Each error is the twin's: if no value of the twin is there, none of this type is.
pub fn deserialize_as<T: Via, R: ReadExt>(de: &mut Deserializer<R>) -> Result<T>
    ensures ok { IfOk result (λ value. Reads T.As.shape de.old de.new
        (T.As.meaning (T.parts value))) }
    ensures err { IfErr result (Refuses (λ value. T.As.meaning (T.parts value)) T.As.shape de.old
        de.new) }
    ensures refused_by { IfErr result (RefusesBy T.As.facts.rule de.old de.new) }
{
    Ok(T::from_parts(T::As::deserialize(de)?))
}

/// A type that is decoded as another type, its twin, and converted, where the conversion may fail.
///
/// It is like `Via`, but some values of the twin are no value of the type.
pub trait TryVia: Sized {
    /// The twin.
    type As: Deserialize;

    // The value of the twin for this value.
    ghost parts: { Self → Self.As };

    /// The value for this value of the twin. `InvalidData` if there is none, and `OutOfMemory` if an allocation fails.
    fn try_from_parts(value: Self::As) -> Result<Self>
        ensures ok { IfOk result (λ it. Self.As.meaning (parts it) ≡ Self.As.meaning value) }
        ensures err { IfErr result (IsNoValue Self.As.meaning parts value) };
}

/// Reads a value of the twin and converts it. It is the whole body of `Deserialize::deserialize` of such a type.
///
/// `InvalidData` for a value of the twin that is no value of the type: it was read completely then. `OutOfMemory` if an
/// allocation fails. Any other error is the twin's.
pub fn try_deserialize_as<T: TryVia, R: ReadExt>(de: &mut Deserializer<R>) -> Result<T>
    ensures ok { IfOk result (λ value. Reads T.As.shape de.old de.new
        (T.As.meaning (T.parts value))) }
    ensures err { IfErr result (Refuses (λ value. T.As.meaning (T.parts value)) T.As.shape de.old
        de.new) }
    ensures refused_by { IfErr result (RefusesBy (tested_rule T.As.meaning T.As.shape T.parts
        T.As.facts.rule) de.old de.new) }
{
    let twin = T::As::deserialize(de)?;
    match T::try_from_parts(twin) {
        Ok(value) => Ok(value),
        Err(error) => Err(de.refuse(error)),
    }
}
