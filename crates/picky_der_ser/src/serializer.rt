//! What writes values of any type to a sink, and the trait of these types.
ghost use Rattle.std.specs.Prelude.{◌≡◌, List, [], ◌∷◌, None, Some, false, IfNone, IfSome, IfOk, IfErr, OnOk};
ghost use Rattle.picky_der_core.specs.WriterFaults.{IsOnceAtMost};
ghost use Rattle.picky_der_core.specs.Failure.{failure_of};
ghost use Rattle.picky_der_core.specs.Tree.{Tree};
ghost use Rattle.picky_der_ser.specs.Calls.{Writes, RefusesWrite};

mod application;
mod choice;
mod lists;
mod nesting;
mod options;
mod plain;
mod raw;
mod unsupported;
mod wrapper;

use crate::levels::Levels;
use picky_der_core::misc::{BufSink, SliceSink, WriteExt};
use picky_der_core::{Asn1DerError, Failure, Result};
use std::alloc::Global;
use std::marker::Model;

/// A value with a meaning, which is written as its canonical encoding.
pub trait Serialize {
    // The tree that the value means.
    ghost meaning: { Self → Tree };

    /// Writes the value in the serializer's open wrappers, and closes them. Returns how many bytes were written, with
    /// those of the wrappers.
    ///
    /// `UnsupportedValue` if the value can't be written: nothing is written then. `OutOfMemory` if an allocation fails.
    /// Any other error is the sink's. After an error of the sink, or `OutOfMemory`, a beginning of the encoding may be
    /// written. If only an allocation failed, the plain values, lists and tuples of this library leave the sink
    /// unchanged (`untouched`).
    ///
    /// An implementation returns the errors of the calls that it makes, and makes none of its own. After an error the
    /// serializer has failed with it.
    fn serialize<W: WriteExt>(&self, ser: &mut Serializer<W>) -> Result<usize>
        ensures wrote { IfOk result (λ n. Writes W.WriteExt.own
            (meaning self.now) ser.old n ser.new) }
        ensures failed { IfErr result (λ e. RefusesWrite W.WriteExt.own
            (meaning self.now) ser.old e ser.new) }
        ensures counted { IsOnceAtMost (W.faults ser.old.sink) (W.faults ser.new.sink) }
        ensures continues { W.later ser.old.sink ser.new.sink };
}

/// Writes values to a sink. After an error it has failed: each later call returns an error of its kind and writes
/// nothing.
///
/// A call that writes a value returns `UnsupportedValue` if the value can't be written. It returns `OutOfMemory` if an
/// allocation fails; only wrappers, sequences and application tags allocate. Else the error is the sink's:
/// `InvalidSink` if it accepts too few bytes, or the kind of its I/O error.
///
/// A beginning of the encoding may have been written before an error of the sink, or before an allocation failed in a
/// type of your own. Else nothing was written.
#[derive(Drop)]
pub struct Serializer<W: WriteExt> {
    pub(crate) sink: W,
    pub(crate) failed: Option<Failure>,
    pub(crate) levels: Levels,
    pub(crate) alloc: Global,
}

impl<W: WriteExt> Model for Serializer<W> {
    ghost use Rattle.picky_der_ser.specs.State.{State, state_code};

    ghost Value = { State W };

    ghost coded = { state_code W.code };

    ghost view = { λ s. record {
      sink = s.sink;
      around = s.levels.around;
      failed = s.failed;
      inside = s.levels.inside;
      pending = s.levels.pending;
    } };
}

impl<'a> Serializer<SliceSink<'a>> {
    ghost use Rattle.picky_der_core.specs.SliceSink.{slice_of, filled_of, faults_of};

    /// Fills a slice from its first byte on. A full slice accepts no more bytes.
    pub fn new_to_bytes(alloc: Global, buf: &'a mut [u8]) -> Serializer<SliceSink<'a>>
        ensures same_reference { (slice_of result.sink).ghost_name ≡ buf.entry.ghost_name }
        ensures same { (slice_of result.sink).now ≡ buf.old }
        ensures start { filled_of result.sink ≡ 0 }
        ensures no_fault { faults_of result.sink ≡ 0 }
        ensures around { result.around ≡ [] }
        ensures failed { result.failed ≡ None }
        ensures outside { result.inside ≡ None }
        ensures pending { result.pending ≡ None }
    {
        Serializer::new_to_writer(alloc, SliceSink::new(buf))
    }
}

impl<'a> Serializer<BufSink<'a>> {
    ghost use Rattle.picky_der_core.specs.Sink.{vector_of, position_of, faults_of};

    /// Writes over a vector from its first byte on, and then appends to it.
    pub fn new_to_byte_buf(alloc: Global, buf: &'a mut Vec<u8>) -> Serializer<BufSink<'a>>
        ensures same_reference { (vector_of result.sink).ghost_name ≡ buf.entry.ghost_name }
        ensures same { (vector_of result.sink).now ≡ buf.old }
        ensures start { position_of result.sink ≡ 0 }
        ensures no_fault { faults_of result.sink ≡ 0 }
        ensures around { result.around ≡ [] }
        ensures failed { result.failed ≡ None }
        ensures outside { result.inside ≡ None }
        ensures pending { result.pending ≡ None }
    {
        Serializer::new_to_writer(alloc, BufSink::new(buf))
    }
}

impl<W: WriteExt> Serializer<W> {
    /// Appends to a writer, which may be a `&mut` of one.
    pub fn new_to_writer(alloc: Global, writer: W) -> Serializer<W>
        ensures same { result.sink ≡ writer }
        ensures around { result.around ≡ [] }
        ensures failed { result.failed ≡ None }
        ensures outside { result.inside ≡ None }
        ensures pending { result.pending ≡ None }
    {
        Serializer {
            sink: writer,
            failed: None,
            levels: Levels::new(alloc),
            alloc,
        }
    }

    /// Returns the writer.
    pub fn into_writer(self) -> W
        ensures { result ≡ self.sink }
    {
        let Serializer {
            sink,
            failed: _,
            levels: _,
            alloc: _,
        } = self;
        sink
    }

    /// Returns false: DER is a binary encoding.
    pub fn is_human_readable(&self) -> bool
        ensures { result ≡ false }
    {
        false
    }

    // The error that it returns again if it has failed.
    pub(crate) fn earlier(&self) -> Option<Asn1DerError>
        ensures again { IfSome result (λ e. self.now.failed ≡ Some (failure_of e)) }
        ensures not_failed { IfNone result (self.now.failed ≡ None) }
    {
        match self.failed {
            Some(failure) => Some(failure.error()),
            None => None,
        }
    }

    // Fails with this error.
    pub(crate) fn fail(&mut self, error: Asn1DerError) -> Asn1DerError
        ensures error { result ≡ error }
        ensures same { self.new ≡ record self.old { failed = Some (failure_of error) } }
    {
        self.failed = Some(Failure::of(error));
        error
    }

    // Closes the wrappers at `Ok`, and fails at `Err`.
    pub(crate) fn settle(&mut self, outcome: Result<usize>) -> Result<usize>
        ensures same { result ≡ outcome }
        ensures sink { (self.new.sink ≡ self.old.sink) × (self.new.inside ≡ self.old.inside) }
        ensures ok { OnOk outcome ((self.new.around ≡ []) × (self.new.failed ≡ self.old.failed)) }
        ensures err { IfErr outcome (λ e. self.new.failed ≡ Some (failure_of e)) }
    {
        match outcome {
            Ok(count) => {
                self.levels.close_wrapper();
                Ok(count)
            }
            Err(error) => {
                self.failed = Some(Failure::of(error));
                Err(error)
            }
        }
    }
}
