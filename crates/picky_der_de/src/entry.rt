//! Whole values, read from slices and readers.
ghost use Rattle.picky_der_de.specs.declared.entry.TheConstants.{DEFAULT_MAX_LEN};
ghost use Rattle.std.specs.Prelude.{◌≡◌, length, IfOk, IfErr};
ghost use Rattle.picky_der_de.specs.Entry.{IsFront, HasNoFront, ReadsFront, RefusesFront, view_of};
ghost use Rattle.picky_der_de.specs.Rules.{RefusesFrontBy, RefusesSliceBy};

use crate::{Deserialize, Deserializer};
use picky_der_core::Result;
use picky_der_core::misc::ReadExt;
use std::alloc::Global;

/// The limit of `from_reader`, in bytes.
pub const DEFAULT_MAX_LEN: usize = 10240;

// Reads a value at the front of a reader, and returns the reader too.
fn read_from<T: Deserialize, R: ReadExt>(alloc: Global, reader: R, max_len: usize) -> (Result<T>, R)
    ensures ok { IfOk result.0 (ReadsFront T.meaning T.shape T.eq max_len
        (view_of R.remaining R.faults reader) (view_of R.remaining R.faults result.1)) }
    ensures err { IfErr result.0 (RefusesFront T.meaning T.shape max_len
        (view_of R.remaining R.faults reader) (view_of R.remaining R.faults result.1)) }
    ensures refused_by { IfErr result.0 (RefusesFrontBy T.facts.rule max_len
        (view_of R.remaining R.faults reader) (view_of R.remaining R.faults result.1)) }
    ensures same_references { R.references result.1 ≡ R.references reader }
{
    let mut de = Deserializer::new_from_reader(alloc, reader, max_len);
    let result = T::deserialize(&mut de);
    (result, de.into_reader())
}

/// The value at the front of a slice. Bytes after it are ignored.
///
/// An error other than `OutOfMemory` means that no readable value of the type's shape is at the front. It is
/// `TruncatedData` if more bytes after the slice could make one. Any other error is final. It is the error of the
/// type's rule.
pub fn from_bytes<T: Deserialize>(alloc: Global, bytes: &[u8]) -> Result<T>
    ensures ok { IfOk result (IsFront T.meaning T.shape T.eq bytes.now (length bytes.now)) }
    ensures err { IfErr result (HasNoFront T.meaning T.shape bytes.now (length bytes.now)) }
    ensures refused_by { IfErr result (RefusesSliceBy T.facts.rule bytes.now) }
{
    let mut de = Deserializer::new_from_reader(alloc, bytes, bytes.len());
    let result = T::deserialize(&mut de);
    // No effect at run time.
    de.has_no_faults();
    result
}

/// Reads a value from a reader, of at most `DEFAULT_MAX_LEN` bytes. Bytes after it are left in the reader.
///
/// If the reader fails, the error is that of its I/O error. If an allocation fails, it is `OutOfMemory`. Else no
/// readable value of the type's shape is there within the limit.
///
/// `Other` comes only if the reader failed. Unless the error is `TruncatedData`, no more bytes after the consumed ones
/// could make a value. What was consumed isn't given back. Unless the reader or an allocation failed, it is the error
/// of the type's rule.
pub fn from_reader<T: Deserialize, R: ReadExt>(alloc: Global, reader: &mut R) -> Result<T>
    ensures ok { IfOk result (ReadsFront T.meaning T.shape T.eq DEFAULT_MAX_LEN
        (view_of R.remaining R.faults reader.old) (view_of R.remaining R.faults reader.new)) }
    ensures err { IfErr result (RefusesFront T.meaning T.shape DEFAULT_MAX_LEN
        (view_of R.remaining R.faults reader.old) (view_of R.remaining R.faults reader.new)) }
    ensures refused_by { IfErr result (RefusesFrontBy T.facts.rule DEFAULT_MAX_LEN
        (view_of R.remaining R.faults reader.old) (view_of R.remaining R.faults reader.new)) }
    ensures same_references { R.references reader.new ≡ R.references reader.old }
{
    from_reader_with_max_len(alloc, reader, DEFAULT_MAX_LEN)
}

/// Reads a value from a reader, of at most `max_len` bytes. The errors are those of `from_reader`.
pub fn from_reader_with_max_len<T: Deserialize, R: ReadExt>(
    alloc: Global,
    reader: &mut R,
    max_len: usize,
) -> Result<T>
    ensures ok { IfOk result (ReadsFront T.meaning T.shape T.eq max_len
        (view_of R.remaining R.faults reader.old) (view_of R.remaining R.faults reader.new)) }
    ensures err { IfErr result (RefusesFront T.meaning T.shape max_len
        (view_of R.remaining R.faults reader.old) (view_of R.remaining R.faults reader.new)) }
    ensures refused_by { IfErr result (RefusesFrontBy T.facts.rule max_len
        (view_of R.remaining R.faults reader.old) (view_of R.remaining R.faults reader.new)) }
    ensures same_references { R.references reader.new ≡ R.references reader.old }
{
    let (result, _reader) = read_from::<T, &mut R>(alloc, reader, max_len);
    result
}
