//! Whole values, written to vectors, slices and writers.
ghost use Rattle.std.specs.Prelude.{◌≡◌, ◌≤◌, length, IfOk, OnOk, IfErr};
ghost use Rattle.picky_der_core.specs.WriterFaults.{IsOnceAtMost};
ghost use Rattle.picky_der_core.specs.Encoding.{der};
ghost use Rattle.picky_der_core.specs.Readable.{IsWritable};
ghost use Rattle.picky_der_core.specs.SliceSink.{slice_of};
ghost use Rattle.picky_der_ser.specs.Calls.{MemoryExcuse, SinkWrites, SinkRefuses};
ghost use Rattle.picky_der_ser.specs.Entry.{Overwrites, VecRefuses, SliceRefuses};

use crate::levels::{FIRST_ROOM, Levels};
use crate::{Serialize, Serializer};
use picky_der_core::Result;
use picky_der_core::misc::{BufSink, SliceSink, WriteExt};
use std::alloc::Global;

/// Writes the canonical encoding of a value into a slice, and returns its length in bytes. Bytes past the encoding
/// stay.
///
/// `InvalidSink` if the slice is too short: it holds the first bytes of the encoding then. `UnsupportedValue` if the
/// value can't be written: the slice is unchanged then. `OutOfMemory` if an allocation fails.
///
/// After `OutOfMemory` the slice may hold a beginning of the encoding, if the value's type allocates after it began to
/// write. Plain values, lists, structs, tuples and application tags never do.
pub fn to_bytes<T: Serialize>(alloc: Global, value: &T, buf: &mut [u8]) -> Result<usize>
    ensures ok { IfOk result (λ n. Overwrites (T.meaning value.now) buf.old n buf.new) }
    ensures fits { OnOk result (length (der (T.meaning value.now)) ≤ length buf.old) }
    ensures err { IfErr result (λ e. SliceRefuses (T.meaning value.now) buf.old e buf.new) }
{
    let mut sink = SliceSink::new(buf);
    let outcome = to_writer(alloc, value, &mut sink);
    end_loan(sink);
    outcome
}

/// Writes the canonical encoding of a value over the first bytes of a vector, and returns its length in bytes. The
/// vector grows if it is shorter, and bytes past the encoding stay.
///
/// `OutOfMemory` if an allocation fails: the vector may hold a beginning of the encoding then. `UnsupportedValue` if
/// the value can't be written: the vector is unchanged then.
pub fn to_byte_buf<T: Serialize>(alloc: Global, value: &T, buf: &mut Vec<u8>) -> Result<usize>
    ensures ok { IfOk result (λ n. Overwrites (T.meaning value.now) buf.old.items n buf.new.items) }
    ensures err { IfErr result (λ e. VecRefuses
        (T.meaning value.now) buf.old.items e buf.new.items) }
{
    let mut sink = BufSink::new(buf);
    let outcome = to_writer(alloc, value, &mut sink);
    let written = sink.into_inner();
    // No effect at run time. The proof reads what `buf` holds from this use.
    let _ = &*written;
    outcome
}

/// The canonical encoding of a value, in a vector that may have room for more bytes.
///
/// `OutOfMemory` if an allocation fails. `UnsupportedValue` if the value can't be written: a tag number in it is past
/// 30, the tag of an `ImplicitList` isn't constructed, or the encoding is longer than `usize::MAX`.
pub fn to_vec<T: Serialize>(alloc: Global, value: &T) -> Result<Vec<u8>>
    ensures ok { IfOk result (λ bytes. bytes.items ≡ der (T.meaning value.now)) }
    ensures writable { OnOk result (IsWritable (T.meaning value.now)) }
    ensures err { IfErr result (MemoryExcuse (IsWritable (T.meaning value.now))) }
{
    let mut untouched = [];
    let scratch = Vec::with_capacity(alloc, FIRST_ROOM)?;
    // All is written into a level, so the sink isn't touched.
    let mut serializer = Serializer {
        sink: SliceSink::new(&mut untouched),
        failed: None,
        levels: Levels::new_in_root(alloc, scratch),
        alloc,
    };
    value.serialize(&mut serializer)?;
    let Serializer {
        sink: _,
        failed: _,
        levels,
        alloc: _,
    } = serializer;
    Ok(levels.into_bytes())
}

/// Writes the canonical encoding of a value to a writer, after what was written before, and returns its length in
/// bytes.
///
/// `UnsupportedValue` if the value can't be written: nothing is written then. If the writer fails, the error is the
/// writer's: a beginning of the encoding is written then, and at least one byte is missing. `OutOfMemory` if an
/// allocation fails.
///
/// After `OutOfMemory` a beginning of the encoding may be written, if the value's type allocates after it began to
/// write. Plain values, lists, structs, tuples and application tags never do.
pub fn to_writer<T: Serialize, W: WriteExt>(
    alloc: Global,
    value: &T,
    writer: &mut W,
) -> Result<usize>
    ensures ok { IfOk result (λ n. SinkWrites W.WriteExt.own
        (T.meaning value.now) writer.old n writer.new) }
    ensures no_fault { OnOk result (W.faults writer.new ≡ W.faults writer.old) }
    ensures err { IfErr result (λ e. SinkRefuses W.WriteExt.own
        (T.meaning value.now) writer.old e writer.new) }
    ensures counted { IsOnceAtMost (W.faults writer.old) (W.faults writer.new) }
    ensures continues { W.later writer.old writer.new }
{
    let mut ser = Serializer::new_to_writer(alloc, writer);
    let outcome = value.serialize(&mut ser);
    let written = ser.into_writer();
    // No effect at run time. The proof reads what `writer` holds from this use.
    let _ = &*written;
    outcome
}

// Ends the use of the sink. By this clause the proof of `to_bytes` reads what the slice holds after that.
fn end_loan(_sink: SliceSink<'_>)
    ensures { _sink.exit.0.now ≡ (slice_of _sink.entry).now }
{}
