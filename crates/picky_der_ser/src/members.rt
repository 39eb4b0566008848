//! Members of a SEQUENCE: one, and all of them in a tuple.
ghost use Rattle.std.specs.Prelude.{◌≡◌, IfOk, IfErr, OnOk};
ghost use Rattle.picky_der_core.specs.WriterFaults.{IsOnceAtMost};
ghost use Rattle.picky_der_core.specs.Equality.{IsThatOf};
ghost use Rattle.picky_der_core.specs.Tree.{ListKind, Tree, Trees};
ghost use Rattle.picky_der_ser.specs.Calls.{UntouchedUnlessFailed, RefusesWrite, AddsAll, RefusesToAddAll, Writes};
ghost use Rattle.picky_der_ser.specs.Calls.{AddsPrepended, RefusesPrepended};

use crate::{Sequence, Serialize, Serializer};
use picky_der_core::Result;
use picky_der_core::asn1::Tag;
use picky_der_core::misc::WriteExt;

/// A member of a SEQUENCE: a value that is always there, or one that may be absent.
pub trait SerializeMember {
    ghost use Rattle.picky_der_ser.specs.SequenceState.{borrowed_by, state_of};

    // The members after it, with this one before them if it is there.
    ghost prepend: { Self → Trees → Trees };

    /// Adds the member to the sequence, if it is there. The errors are those of `serialize_element`.
    fn serialize_member<W: WriteExt>(&self, sequence: &mut Sequence<'_, W>) -> Result<()>
        ensures same_reference { borrowed_by sequence.new ≡ borrowed_by sequence.old }
        ensures added { OnOk result (AddsPrepended W.WriteExt.own (prepend self.now)
            (state_of sequence.old) (state_of sequence.new)) }
        ensures err { IfErr result (λ e. RefusesPrepended W.WriteExt.own (prepend self.now)
            (state_of sequence.old) e (state_of sequence.new)) };
}

impl<T: Serialize> SerializeMember for T {
    ghost prepend = { λ value. Trees.more (T.meaning value) };

    #[inline(always)]
    fn serialize_member<W: WriteExt>(&self, sequence: &mut Sequence<'_, W>) -> Result<()> {
        sequence.serialize_element(self)
    }
}

/// An element of a tuple, as a member: a value of any type, written as it is. An absent one can't be read back, so the
/// members of a struct that may be absent are `Optional`.
#[derive(Debug, Drop, PartialEq, Eq)]
pub struct Element<T>(pub T);

impl<T: PartialEq> Element<T> {
    /// Two are equal exactly if their values are.
    pub fn equality()
        ensures { IsThatOf ⟦<Element<T> as PartialEq>⟧.eq (λ element. element.0) T.eq }
    {}
}

impl<T: Serialize> SerializeMember for Element<T> {
    ghost prepend = { λ element. Trees.more (T.meaning element.0) };

    fn serialize_member<W: WriteExt>(&self, sequence: &mut Sequence<'_, W>) -> Result<()> {
        sequence.serialize_element(&self.0)
    }
}

/// Members of a sequence: `()`, or a tuple of up to sixteen members and the members after them, as `(A, B, C, ())`.
pub trait SerializeMembers {
    ghost use Rattle.picky_der_ser.specs.SequenceState.{borrowed_by, state_of};

    // What the members mean, in their order.
    ghost members: { Self → Trees };

    /// Adds the members to the sequence. The errors are those of `serialize_element`.
    fn serialize_members<W: WriteExt>(&self, sequence: &mut Sequence<'_, W>) -> Result<()>
        ensures same_reference { borrowed_by sequence.new ≡ borrowed_by sequence.old }
        ensures added { OnOk result (AddsAll W.WriteExt.own (members self.now)
            (state_of sequence.old) (state_of sequence.new)) }
        ensures err { IfErr result (λ e. RefusesToAddAll W.WriteExt.own (members self.now)
            (state_of sequence.old) e (state_of sequence.new)) };

    /// Writes the members as a sequence. It is the whole body of `Serialize::serialize` of a struct, and has its
    /// errors.
    fn serialize_sequence<W: WriteExt>(&self, ser: &mut Serializer<W>) -> Result<usize>
        ensures wrote { IfOk result (λ n. Writes W.WriteExt.own
            (Tree.list ListKind.sequence (members self.now)) ser.old n ser.new) }
        ensures failed { IfErr result (λ e. RefusesWrite W.WriteExt.own
            (Tree.list ListKind.sequence (members self.now)) ser.old e ser.new) }
        ensures untouched { IfErr result (λ e. UntouchedUnlessFailed W.WriteExt.own
            ser.old.sink e ser.new.sink) }
        ensures counted { IsOnceAtMost (W.faults ser.old.sink) (W.faults ser.new.sink) }
        ensures continues { W.later ser.old.sink ser.new.sink }
    {
        let mut sequence = Sequence::serialize_lazy(ser, Tag::SEQUENCE);
        self.serialize_members(&mut sequence)?;
        sequence.end()
    }
}

/// A member by reference, for a field of a struct.
impl<T: Serialize> Serialize for &T {
    ghost meaning = { λ value. T.meaning value.now };

    #[inline(always)]
    fn serialize<W: WriteExt>(&self, ser: &mut Serializer<W>) -> Result<usize> {
        T::serialize(self, ser)
    }
}

/// Members by reference, for the fields of a struct.
impl<M: SerializeMembers> SerializeMembers for &M {
    ghost members = { λ it. M.members it.now };

    fn serialize_members<W: WriteExt>(&self, sequence: &mut Sequence<'_, W>) -> Result<()> {
        M::serialize_members(self, sequence)
    }
}

impl SerializeMembers for () {
    ghost members = { λ _. Trees.none };

    fn serialize_members<W: WriteExt>(&self, _sequence: &mut Sequence<'_, W>) -> Result<()> {
        Ok(())
    }
}
