//! What lists of values of one type mean.
ghost use Rattle.std.specs.Prelude.{IfOk, IfErr};
ghost use Rattle.picky_der_core.specs.WriterFaults.{IsOnceAtMost};
ghost use Rattle.picky_der_core.specs.Tree.{ListKind};
ghost use Rattle.picky_der_ser.specs.Calls.{UntouchedUnlessFailed, Writes, RefusesWrite, WritesWhole};
ghost use Rattle.picky_der_ser.specs.Meaning.{list_meaning, array_meaning};
ghost use Rattle.picky_der_ser.specs.Sequences.{IsListTag, list_kind};

use crate::{List, Sequence, Serialize, Serializer};
use picky_der_core::Result;
use picky_der_core::asn1::{Asn1SequenceOf, Asn1SetOf, Tag};
use picky_der_core::misc::WriteExt;

// Writes the items as members of a list with this tag.
fn write_items<T: Serialize, W: WriteExt>(
    items: &[T],
    tag: Tag,
    ser: &mut Serializer<W>,
) -> Result<usize>
    requires { IsListTag tag }
    ensures wrote { IfOk result (λ n. Writes W.WriteExt.own
        (list_meaning (list_kind tag) T.meaning items.now) ser.old n ser.new) }
    ensures failed { IfErr result (λ e. RefusesWrite W.WriteExt.own
        (list_meaning (list_kind tag) T.meaning items.now) ser.old e ser.new) }
    ensures untouched { IfErr result (λ e. UntouchedUnlessFailed W.WriteExt.own
        ser.old.sink e ser.new.sink) }
    ensures counted { IsOnceAtMost (W.faults ser.old.sink) (W.faults ser.new.sink) }
    ensures continues { W.later ser.old.sink ser.new.sink }
{
    let mut seq = Sequence::serialize_lazy(ser, tag);
    for item in items {
        seq.serialize_element(item)?;
    }
    seq.end()
}

impl<T: Serialize> Serialize for &[T] {
    ghost meaning = { λ list. list_meaning ListKind.sequence T.meaning list.now };

    fn serialize<W: WriteExt>(&self, ser: &mut Serializer<W>) -> Result<usize>
        ensures whole { WritesWhole W.WriteExt.own
            (list_meaning ListKind.sequence T.meaning self.now.now) ser.old result ser.new }
    {
        write_items(self, Tag::SEQUENCE, ser)
    }
}

impl<T: Serialize> List for &[T] {
    ghost is_list = { λ list. tt };
}

impl<T: Serialize> Serialize for Vec<T> {
    ghost meaning = { λ list. list_meaning ListKind.sequence T.meaning list.items };

    fn serialize<W: WriteExt>(&self, ser: &mut Serializer<W>) -> Result<usize>
        ensures whole { WritesWhole W.WriteExt.own
            (list_meaning ListKind.sequence T.meaning self.now.items) ser.old result ser.new }
    {
        write_items(self, Tag::SEQUENCE, ser)
    }
}

impl<T: Serialize> List for Vec<T> {
    ghost is_list = { λ list. tt };
}

impl<T: Serialize, const N: usize> Serialize for [T; N] {
    ghost meaning = { array_meaning N T.meaning };

    fn serialize<W: WriteExt>(&self, ser: &mut Serializer<W>) -> Result<usize>
        ensures whole { WritesWhole W.WriteExt.own
            (list_meaning ListKind.sequence T.meaning self.now) ser.old result ser.new }
        ensures meant { WritesWhole W.WriteExt.own (array_meaning N T.meaning self.now)
            ser.old result ser.new }
    {
        write_items(self.as_slice(), Tag::SEQUENCE, ser)
    }
}

impl<T: Serialize, const N: usize> List for [T; N] {
    ghost is_list = { λ list. tt };
}

impl<T: Serialize> Serialize for Asn1SequenceOf<T> {
    ghost meaning = { λ list. list_meaning ListKind.sequence T.meaning list.0.items };

    fn serialize<W: WriteExt>(&self, ser: &mut Serializer<W>) -> Result<usize>
        ensures whole { WritesWhole W.WriteExt.own
            (list_meaning ListKind.sequence T.meaning self.now.0.items) ser.old result ser.new }
    {
        write_items(&self.0, Tag::SEQUENCE, ser)
    }
}

impl<T: Serialize> List for Asn1SequenceOf<T> {
    ghost is_list = { λ list. tt };
}

impl<T: Serialize> Serialize for Asn1SetOf<T> {
    ghost meaning = { λ list. list_meaning ListKind.set T.meaning list.0.items };

    fn serialize<W: WriteExt>(&self, ser: &mut Serializer<W>) -> Result<usize>
        ensures whole { WritesWhole W.WriteExt.own
            (list_meaning ListKind.set T.meaning self.now.0.items) ser.old result ser.new }
    {
        write_items(&self.0, Tag::SET, ser)
    }
}

impl<T: Serialize> List for Asn1SetOf<T> {
    ghost is_list = { λ list. tt };
}
