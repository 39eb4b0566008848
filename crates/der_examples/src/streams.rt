//! Several values, one after another.
ghost use Rattle.std.specs.Prelude.{ℕ, ◌⊎◌, drop, length, IfNone, IfSome, IfOk, IfErr};
ghost use Rattle.picky_der_core.specs.Primitive.{Primitive};
ghost use Rattle.picky_der_core.specs.Encoding.{der};
ghost use Rattle.picky_der_core.specs.Tree.{Tree};
ghost use Rattle.picky_der_de.specs.Entry.{HasNoFront, IsFront, ReadsFront, HasNoneLeft, RefusesNextValue, view_of};

use picky_asn1_der::misc::ReadExt;
use picky_asn1_der::{
    Deserialize, Result, Serialize, from_bytes, next_from_bytes, next_from_reader,
};
use std::alloc::Global;

/// Reads a number and the text after it: 7 and `hi` from `02 01 07 0C 02 68 69`. Its errors are the errors of
/// `next_from_bytes` for the number, and of `from_bytes` for the text.
pub fn number_and_text(alloc: Global, bytes: &[u8]) -> Result<(u8, String)>
    ensures number { IfOk result (λ pair. IsFront ⟦<u8 as Serialize>⟧.meaning
        ⟦<u8 as Deserialize>⟧.shape ⟦<u8 as PartialEq>⟧.eq bytes.now (length bytes.now) pair.0) }
    ensures text { IfOk result (λ pair.
        let after = drop (length (der (Tree.primitive (Primitive.unsigned pair.0)))) bytes.now in
        IsFront ⟦<String as Serialize>⟧.meaning ⟦<String as Deserialize>⟧.shape
        ⟦<String as PartialEq>⟧.eq after (length after) pair.1) }
    ensures err { IfErr result (λ e. HasNoFront ⟦<u8 as Serialize>⟧.meaning
        ⟦<u8 as Deserialize>⟧.shape bytes.now (length bytes.now) e
        ⊎ ((number : ℕ) × IsFront ⟦<u8 as Serialize>⟧.meaning ⟦<u8 as Deserialize>⟧.shape
        ⟦<u8 as PartialEq>⟧.eq bytes.now (length bytes.now) number
        × HasNoFront ⟦<String as Serialize>⟧.meaning ⟦<String as Deserialize>⟧.shape
        (drop (length (der (Tree.primitive (Primitive.unsigned number)))) bytes.now)
        (length (drop (length (der (Tree.primitive (Primitive.unsigned number)))) bytes.now)) e)) }
{
    let (number, taken) = next_from_bytes(alloc, bytes)?;
    let text = from_bytes(alloc, &bytes[taken..])?;
    Ok((number, text))
}

/// Reads the next text of a reader, in at most 4096 bytes, or returns `None` if the reader has no more bytes. A text
/// that is cut short is `TruncatedData`.
pub fn next_text<R: ReadExt>(alloc: Global, reader: &mut R) -> Result<Option<String>>
    ensures value { IfOk result (λ next. IfSome next
        (ReadsFront ⟦<String as Serialize>⟧.meaning ⟦<String as Deserialize>⟧.shape
        ⟦<String as PartialEq>⟧.eq 4096 (view_of R.remaining R.faults reader.old)
        (view_of R.remaining R.faults reader.new))) }
    ensures ended { IfOk result (λ next. IfNone next
        (HasNoneLeft 4096 (view_of R.remaining R.faults reader.old)
        (view_of R.remaining R.faults reader.new))) }
    ensures err { IfErr result (RefusesNextValue ⟦<String as Serialize>⟧.meaning
        ⟦<String as Deserialize>⟧.shape 4096 (view_of R.remaining R.faults reader.old)
        (view_of R.remaining R.faults reader.new)) }
{
    next_from_reader(alloc, reader, 4096)
}
