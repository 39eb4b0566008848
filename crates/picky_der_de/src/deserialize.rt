//! The trait of what is read.
ghost use Rattle.std.specs.Prelude.{IfOk, IfErr};
ghost use Rattle.picky_der_core.specs.Shape.{Shape};
ghost use Rattle.picky_der_de.specs.Reading.{Reads, Refuses};
ghost use Rattle.picky_der_de.specs.RefusesBy.{RefusesBy};
ghost use Rattle.picky_der_de.specs.Facts.{Facts, Proved};

use crate::Deserializer;
use picky_der_core::Result;
use picky_der_core::misc::ReadExt;
use picky_der_ser::Serialize;

/// A value that can be read from its canonical encoding.
pub trait Deserialize: Serialize + PartialEq + Drop + Sized {
    // The trees of its values.
    ghost shape: { Shape };

    // What the type says of its values: which trees they mean, that these determine them, and by which rule bytes are
    // refused. The first two follow from the premise.
    ghost facts: { Facts Self shape };

    /// Reads a value, and consumes exactly the bytes of its encoding. Directly under an implicit tag it consumes the
    /// bytes of its content.
    ///
    /// An implementation returns the errors of the calls that it makes, and makes the deserializer fail with its own
    /// errors.
    ///
    /// If the error is no I/O error and not `OutOfMemory`, no value of the type is there. Unless it is `TruncatedData`,
    /// no bytes after the consumed ones could change that.
    ///
    /// Then known bytes are refused as the type's rule says: with its error, and with its bytes left.
    fn deserialize<R: ReadExt>(de: &mut Deserializer<R>) -> Result<Self>
        ensures ok { IfOk result (λ value. Reads shape de.old de.new (Self.meaning value)) }
        ensures err { IfErr result (Refuses Self.meaning shape de.old de.new) }
        ensures refused_by { IfErr result (RefusesBy facts.rule de.old de.new) };

    // The premise, and that the facts are of what the values mean to `Serialize`, and of their `==`.
    ghost proved: { Proved facts Self.meaning Self.eq };
}
