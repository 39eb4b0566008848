//! Decoding the encoding of a readable value gives an equal value, and no other bytes decode to it. Here this is the
//! contract of functions that only write and read.
ghost use Rattle.std.specs.Prelude.{◌≡◌, ◌↔◌, length, true, IsTrue, IfOk, IfErr};
ghost use Rattle.picky_der_core.specs.Element.{IsPrefix};
ghost use Rattle.picky_der_core.specs.Encoding.{der};
ghost use Rattle.picky_der_core.specs.Shape.{IsOf};
ghost use Rattle.picky_der_core.specs.Readable.{IsReadable, IsWritable};
ghost use Rattle.picky_der_core.specs.Reading.{ReadsFrom};
ghost use Rattle.picky_der_ser.specs.Calls.{MemoryExcuse};
ghost use Rattle.picky_der_de.specs.Entry.{HasNoFront};
ghost use Rattle.picky_der_de.specs.Rules.{RefusesSliceBy};

use crate::{Asn1DerError, Deserialize, Faithful, Result, from_bytes, from_der, to_vec};
use std::alloc::Global;

/// A readable value of a type is of its shape.
pub fn readable_has_shape<T: Deserialize>()
    ensures { (value : T) → IsReadable (T.meaning value) → IsOf T.shape (T.meaning value) }
{}

/// Two values of a type with `Faithful` that are equal by `==` mean the same tree.
pub fn equal_meanings<T: Faithful>()
    ensures { (x y : T) → T.eq x y ≡ true → T.meaning x ≡ T.meaning y }
{}

/// Two readable values of a type with `Faithful` are equal by `==` exactly if their encodings are the same.
pub fn equal_encodings<T: Faithful>()
    ensures { (x y : T) → IsReadable (T.meaning x) → IsReadable (T.meaning y)
        → (T.eq x y ≡ true) ↔ (der (T.meaning x) ≡ der (T.meaning y)) }
{}

/// Whether a value is readable: whether its encoding is read back as an equal value.
///
/// `OutOfMemory` if an allocation fails, and `UnsupportedValue` if the value can't be written.
pub fn reads_back<T: Faithful>(alloc: Global, value: &T) -> Result<bool>
    ensures ok { IfOk result (λ readable. IsTrue readable ↔ IsReadable (T.meaning value.now)) }
    ensures err { IfErr result (MemoryExcuse (IsWritable (T.meaning value.now))) }
{
    readable_has_shape::<T>();
    equal_meanings::<T>();
    let bytes = to_vec(alloc, value)?;
    match from_der::<T>(alloc, &bytes) {
        Ok(back) => Ok(back == *value),
        Err(refusal) => {
            if refusal.error == Asn1DerError::OutOfMemory {
                return Err(Asn1DerError::OutOfMemory);
            }
            Ok(false)
        }
    }
}

/// Writes a value and reads it back. The result is equal to the value, and means the same tree.
///
/// `OutOfMemory` if an allocation fails, and `UnsupportedValue` if the encoding is longer than `usize::MAX`.
pub fn read_back<T: Deserialize>(alloc: Global, value: &T) -> Result<T>
    requires readable { IsReadable (T.meaning value.now) }
    ensures equal { IfOk result (λ back. T.eq back value.now ≡ true) }
    ensures same { IfOk result (λ back. T.meaning back ≡ T.meaning value.now) }
    ensures err { IfErr result (MemoryExcuse (IsWritable (T.meaning value.now))) }
{
    let bytes = to_vec(alloc, value)?;
    from_bytes(alloc, &bytes)
}

/// Reads the value at the front of some bytes and writes it again. The result is what was read, byte for byte.
///
/// `OutOfMemory` if an allocation fails. Any other error is that of `from_bytes`, and means that no value is at the
/// front.
pub fn written_back<T: Deserialize>(alloc: Global, bytes: &[u8]) -> Result<Vec<u8>>
    ensures written { IfOk result (λ again. (v : T)
        × ReadsFrom T.meaning T.shape bytes.now (length bytes.now) v
        × (again.items ≡ der (T.meaning v))) }
    ensures same { IfOk result (λ again. IsPrefix again.items bytes.now) }
    ensures err { IfErr result (HasNoFront T.meaning T.shape bytes.now (length bytes.now)) }
    ensures refused_by { IfErr result (RefusesSliceBy T.facts.rule bytes.now) }
{
    let value: T = from_bytes(alloc, bytes)?;
    to_vec(alloc, &value)
}
