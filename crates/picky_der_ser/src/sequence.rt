//! Sequences and sets that are being written (X.690, 8.9 to 8.12).
ghost use Rattle.std.specs.Prelude.{◌≡◌, [], IfErr, OnOk};
ghost use Rattle.picky_der_ser.specs.Calls.{OpensLevel, AddsMember, RefusesToAdd, EndsLevel};
ghost use Rattle.picky_der_ser.specs.Sequences.{IsListTag, HasOpenLevel};
ghost use Rattle.picky_der_ser.specs.MarkProps.{HasOpenLevel-prop};

use crate::levels::Mark;
use crate::{Header, Serialize, Serializer};
use picky_der_core::Result;
use picky_der_core::asn1::Tag;
use picky_der_core::misc::WriteExt;
use std::marker::PhantomData;

/// A sequence or a set that is being written. If it is dropped without `end`, it writes nothing, and the wrappers that
/// were open when it began are dropped.
#[derive(Drop)]
pub struct Sequence<'a, W: WriteExt> {
    pub(crate) ser: &'a mut Serializer<W>,
    pub(crate) mark: Mark,
    // No effect at run time. By this field the proof of `end` knows the type of the header in the mark.
    pub(crate) header: PhantomData<Header>,
    // Unless the serializer has failed, the level of the mark is the one that was opened last.
    ghost opened: { HasOpenLevel mark ser.now.failed ser.now.inside ser.now.pending } by { HasOpenLevel-prop mark ser.now.failed ser.now.inside ser.now.pending },
}

impl<'a, W: WriteExt> Sequence<'a, W> {
    ghost use Rattle.picky_der_ser.specs.SequenceState.{borrowed_by, open_around, state_of};

    /// Begins a sequence or set, in the open wrappers, which become its own. The tag is `SEQUENCE` or `SET`. Nothing is
    /// allocated before the first member.
    #[inline(always)]
    pub fn serialize_lazy(ser: &'a mut Serializer<W>, tag: Tag) -> Sequence<'a, W>
        requires { IsListTag tag }
        ensures same_reference { borrowed_by result ≡ ser.entry.ghost_name }
        ensures opened { OpensLevel W.WriteExt.own (Header.Tagged tag) ser.old (state_of result) }
        ensures bare { open_around result ≡ [] }
    {
        let mark = ser.open(Header::Tagged(tag));
        Sequence {
            ser,
            mark,
            header: PhantomData,
        }
    }

    /// Adds a member, in no wrapper but its own.
    ///
    /// If the serializer has failed before, its earlier error is returned. `UnsupportedValue` if the member can't be
    /// written, and `OutOfMemory` if an allocation fails. Nothing is written to the sink.
    #[inline(always)]
    pub fn serialize_element<T: Serialize>(&mut self, value: &T) -> Result<()>
        ensures same_reference { borrowed_by self.new ≡ borrowed_by self.old }
        ensures added { OnOk result (AddsMember W.WriteExt.own (T.meaning value.now)
            (state_of self.old) (state_of self.new)) }
        ensures bare { OnOk result (open_around self.new ≡ []) }
        ensures err { IfErr result (λ e. RefusesToAdd W.WriteExt.own (T.meaning value.now)
            (state_of self.old) e (state_of self.new)) }
    {
        self.ser.write_member(&mut self.mark, value)
    }

    /// Adds a member, as `serialize_element` does. The key isn't written.
    pub fn serialize_field<T: Serialize>(&mut self, _key: &'static str, value: &T) -> Result<()>
        ensures same_reference { borrowed_by self.new ≡ borrowed_by self.old }
        ensures added { OnOk result (AddsMember W.WriteExt.own (T.meaning value.now)
            (state_of self.old) (state_of self.new)) }
        ensures bare { OnOk result (open_around self.new ≡ []) }
        ensures err { IfErr result (λ e. RefusesToAdd W.WriteExt.own (T.meaning value.now)
            (state_of self.old) e (state_of self.new)) }
    {
        self.serialize_element(value)
    }

    /// Writes the members in the wrappers that were open when the sequence began. Returns how many bytes were written,
    /// with the header and the wrappers. The members of a set are written in ascending order of their encodings, each
    /// as often as it was added (X.690, 11.6).
    ///
    /// If the serializer has failed before, its earlier error is returned. `OutOfMemory` if an allocation fails; if it
    /// is the allocation for the order of a set, nothing was written. Any other error is the sink's.
    pub fn end(self) -> Result<usize>
        ensures { EndsLevel W.WriteExt.own (state_of self.entry) result self.exit.0.now }
    {
        let mark = self.mark;
        let ser: &mut Serializer<W> = self.ser;
        ser.close(&mark)
    }
}
