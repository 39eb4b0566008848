//! Sequences and sets, begun in a serializer's open wrappers.
ghost use Rattle.std.specs.Prelude.{◌≡◌, None, IfOk, OnOk};
ghost use Rattle.std.specs.Borrow.{sem};
ghost use Rattle.picky_der_ser.specs.Calls.{OpensLevel};
ghost use Rattle.picky_der_ser.specs.Lending.{LendsList};
ghost use Rattle.picky_der_ser.specs.Sequences.{IsListTag};
ghost use Rattle.picky_der_ser.specs.SequenceState.{borrowed_by, state_of};

use super::Serializer;
use crate::{Header, Sequence};
use picky_der_core::Result;
use picky_der_core::asn1::Tag;
use picky_der_core::misc::WriteExt;

impl<W: WriteExt> Serializer<W> {
    // Begins a sequence or set in the open wrappers, unless it has failed.
    fn begin_list(&mut self, tag: Tag) -> Result<Sequence<'_, W>>
        requires { IsListTag tag }
        ensures* rests { sem 𝓛 (LendsList W.row W.WriteExt.own W.Write self.entry result) }
        ensures same_reference { IfOk result (λ q. borrowed_by q ≡ self.entry.ghost_name) }
        ensures had_not_failed { OnOk result (self.old.failed ≡ None) }
        ensures opened { IfOk result (λ q. OpensLevel W.WriteExt.own (Header.Tagged tag) self.old
            (state_of q)) }
    {
        if let Some(error) = self.earlier() {
            return Err(error);
        }
        Ok(Sequence::serialize_lazy(self, tag))
    }

    /// Begins a sequence in the open wrappers (X.690, 8.9 and 8.10). The length isn't used: all members that are added
    /// are written. The only error is the earlier one, if the serializer has failed; the same holds for all calls
    /// below.
    pub fn serialize_seq(&mut self, _len: Option<usize>) -> Result<Sequence<'_, W>>
        ensures* rests { sem 𝓛 (LendsList W.row W.WriteExt.own W.Write self.entry result) }
        ensures same_reference { IfOk result (λ q. borrowed_by q ≡ self.entry.ghost_name) }
        ensures had_not_failed { OnOk result (self.old.failed ≡ None) }
        ensures opened { IfOk result (λ q. OpensLevel W.WriteExt.own (Header.Tagged 0x30) self.old
            (state_of q)) }
    {
        self.begin_list(Tag::SEQUENCE)
    }

    /// Begins a sequence, as `serialize_seq` does.
    pub fn serialize_tuple(&mut self, _len: usize) -> Result<Sequence<'_, W>>
        ensures* rests { sem 𝓛 (LendsList W.row W.WriteExt.own W.Write self.entry result) }
        ensures same_reference { IfOk result (λ q. borrowed_by q ≡ self.entry.ghost_name) }
        ensures had_not_failed { OnOk result (self.old.failed ≡ None) }
        ensures opened { IfOk result (λ q. OpensLevel W.WriteExt.own (Header.Tagged 0x30) self.old
            (state_of q)) }
    {
        self.begin_list(Tag::SEQUENCE)
    }

    /// Begins a sequence, as `serialize_seq` does. The name isn't written.
    pub fn serialize_tuple_struct(
        &mut self,
        _name: &'static str,
        _len: usize,
    ) -> Result<Sequence<'_, W>>
        ensures* rests { sem 𝓛 (LendsList W.row W.WriteExt.own W.Write self.entry result) }
        ensures same_reference { IfOk result (λ q. borrowed_by q ≡ self.entry.ghost_name) }
        ensures had_not_failed { OnOk result (self.old.failed ≡ None) }
        ensures opened { IfOk result (λ q. OpensLevel W.WriteExt.own (Header.Tagged 0x30) self.old
            (state_of q)) }
    {
        self.begin_list(Tag::SEQUENCE)
    }

    /// Begins a sequence, as `serialize_seq` does. The name isn't written.
    pub fn serialize_struct(&mut self, _name: &'static str, _len: usize) -> Result<Sequence<'_, W>>
        ensures* rests { sem 𝓛 (LendsList W.row W.WriteExt.own W.Write self.entry result) }
        ensures same_reference { IfOk result (λ q. borrowed_by q ≡ self.entry.ghost_name) }
        ensures had_not_failed { OnOk result (self.old.failed ≡ None) }
        ensures opened { IfOk result (λ q. OpensLevel W.WriteExt.own (Header.Tagged 0x30) self.old
            (state_of q)) }
    {
        self.begin_list(Tag::SEQUENCE)
    }

    /// Begins a set in the open wrappers (X.690, 8.11 and 8.12). Its members may be added in any order. They are
    /// written in ascending order of their encodings (11.6). For a SET with members of several types, 10.3 has the
    /// order of their tags instead; this library writes the order of their encodings.
    pub fn serialize_set(&mut self) -> Result<Sequence<'_, W>>
        ensures* rests { sem 𝓛 (LendsList W.row W.WriteExt.own W.Write self.entry result) }
        ensures same_reference { IfOk result (λ q. borrowed_by q ≡ self.entry.ghost_name) }
        ensures had_not_failed { OnOk result (self.old.failed ≡ None) }
        ensures opened { IfOk result (λ q. OpensLevel W.WriteExt.own (Header.Tagged 0x31) self.old
            (state_of q)) }
    {
        self.begin_list(Tag::SET)
    }
}
