//! Values that follow each other.
ghost use Rattle.std.specs.Prelude.{◌≡◌, ◌≢◌, ◌<◌, ◌≤◌, [], length, None, IfNone, IfSome, IfOk, IfErr};
ghost use Rattle.picky_der_core.specs.Encoding.{der};
ghost use Rattle.picky_der_de.specs.LookAhead.{HasEnded};
ghost use Rattle.picky_der_de.specs.Reading.{Reads, Refuses};
ghost use Rattle.picky_der_core.specs.Reading.{Place, IsMendable};
ghost use Rattle.picky_der_de.specs.Steps.{IsJudged, IsOther};
ghost use Rattle.picky_der_de.specs.Entry.{IsFront, HasNoFront, ReadsFront, HasNoneLeft, RefusesNextValue};
ghost use Rattle.picky_der_de.specs.RefusesBy.{RefusesBy};
ghost use Rattle.picky_der_de.specs.Rules.{next_rule, RefusesFrontBy, RefusesNextBy, RefusesSliceBy};
ghost use Rattle.picky_der_de.specs.Entry.{view_of, any_length};

use crate::{Deserialize, Deserializer, from_bytes, from_reader_with_max_len};
use picky_der_core::misc::ReadExt;
use picky_der_core::{Asn1DerError, Result};
use std::alloc::Global;

/// The value at the front of a slice, and the length of its encoding in bytes. The next value begins after it.
///
/// The errors are those of `from_bytes`. For an empty slice the error is `TruncatedData`, if the type needs a byte and
/// has no tag number past 30.
pub fn next_from_bytes<T: Deserialize>(alloc: Global, bytes: &[u8]) -> Result<(T, usize)>
    ensures ok { IfOk result (λ next. IsFront T.meaning T.shape T.eq bytes.now
        (length bytes.now) next.0) }
    ensures consumed { IfOk result (λ next. next.1 ≡ length (der (T.meaning next.0))) }
    ensures within { IfOk result (λ next. next.1 ≤ length bytes.now) }
    ensures err { IfErr result (HasNoFront T.meaning T.shape bytes.now (length bytes.now)) }
    ensures refused_by { IfErr result (RefusesSliceBy T.facts.rule bytes.now) }
{
    let mut rest = bytes;
    let value = from_reader_with_max_len::<T, &[u8]>(alloc, &mut rest, bytes.len())?;
    Ok((value, bytes.len() - rest.len()))
}

impl<R: ReadExt> Deserializer<R> {
    // The next value, or `None` if the input has ended.
    fn next_value<T: Deserialize>(&mut self) -> Result<Option<T>>
        requires had_not_failed { self.old.failed ≡ None }
        requires whole { self.old.implicit_tag ≡ None }
        ensures value { IfOk result (λ next. IfSome next
            (λ value. Reads T.shape self.old self.new (T.meaning value))) }
        ensures ended { IfOk result (λ next. IfNone next (HasEnded self.old self.new)) }
        ensures err { IfErr result (Refuses T.meaning T.shape self.old self.new) }
        ensures refused_by { IfErr result (RefusesBy (next_rule T.facts.rule) self.old self.new) }
        ensures ahead { IfErr result (λ e. IsJudged self.old self.new e → 0 < self.old.until_end
            → IfSome self.old.input (λ bytes. 0 < length bytes)) }
    {
        match self.identify_next() {
            Ok(Some(_tag)) => {
                let value = T::deserialize(self)?;
                Ok(Some(value))
            }
            Ok(None) => Ok(None),
            Err(error) => Err(error),
        }
    }
}

// The next value of a reader, and the reader.
fn read_next_from<T: Deserialize, R: ReadExt>(
    alloc: Global,
    reader: R,
    max_len: usize,
) -> (Result<Option<T>>, R)
    ensures value { IfOk result.0 (λ next. IfSome next
        (ReadsFront T.meaning T.shape T.eq max_len (view_of R.remaining R.faults reader)
        (view_of R.remaining R.faults result.1))) }
    ensures ended { IfOk result.0 (λ next. IfNone next
        (HasNoneLeft max_len (view_of R.remaining R.faults reader)
        (view_of R.remaining R.faults result.1))) }
    ensures err { IfErr result.0 (RefusesNextValue T.meaning T.shape max_len
        (view_of R.remaining R.faults reader) (view_of R.remaining R.faults result.1)) }
    ensures refused_by { IfErr result.0 (RefusesFrontBy (next_rule T.facts.rule) max_len
        (view_of R.remaining R.faults reader) (view_of R.remaining R.faults result.1)) }
    ensures same_references { R.references result.1 ≡ R.references reader }
{
    let mut de = Deserializer::new_from_reader(alloc, reader, max_len);
    let next = de.next_value::<T>();
    (next, de.into_reader())
}

// The error of a type of which no value can be read, since it has a tag number past 30. `None` if some values can be
// read.
fn refused_always<T: Deserialize>(alloc: Global) -> Option<Asn1DerError>
    ensures never { IfSome result (λ e. e ≢ Asn1DerError.OutOfMemory
        → IsMendable T.meaning T.shape Place.whole [] any_length → ⊥) }
    ensures kind { IfSome result (λ e. e ≢ Asn1DerError.TruncatedData × (IsOther e → ⊥)) }
    ensures refused_by { IfSome result (RefusesSliceBy T.facts.rule []) }
{
    match from_bytes::<T>(alloc, &[]) {
        Ok(_) | Err(Asn1DerError::TruncatedData) => None,
        Err(error) => Some(error),
    }
}

/// The next of several values in a reader, of at most `max_len` bytes, or `None` if the reader has no bytes left. Bytes
/// after the value are left in the reader.
///
/// The errors are those of `from_reader_with_max_len`, by the type's rule. `TruncatedData` for a value that is cut
/// short, and for a limit of 0. If no value of the type can be read, as with a tag number past 30, the error comes
/// before a byte is read.
pub fn next_from_reader<T: Deserialize, R: ReadExt>(
    alloc: Global,
    reader: &mut R,
    max_len: usize,
) -> Result<Option<T>>
    ensures value { IfOk result (λ next. IfSome next
        (ReadsFront T.meaning T.shape T.eq max_len (view_of R.remaining R.faults reader.old)
        (view_of R.remaining R.faults reader.new))) }
    ensures ended { IfOk result (λ next. IfNone next
        (HasNoneLeft max_len (view_of R.remaining R.faults reader.old)
        (view_of R.remaining R.faults reader.new))) }
    ensures err { IfErr result (RefusesNextValue T.meaning T.shape max_len
        (view_of R.remaining R.faults reader.old) (view_of R.remaining R.faults reader.new)) }
    ensures refused_by { IfErr result (RefusesNextBy T.facts.rule max_len
        (view_of R.remaining R.faults reader.old) (view_of R.remaining R.faults reader.new)) }
    ensures same_references { R.references reader.new ≡ R.references reader.old }
{
    if let Some(error) = refused_always::<T>(alloc) {
        return Err(error);
    }
    let (next, _reader) = read_next_from::<T, &mut R>(alloc, reader, max_len);
    next
}
