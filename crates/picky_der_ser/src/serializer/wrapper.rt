//! Wrappers, as a serializer opens them.
ghost use Rattle.std.specs.Prelude.{◌≡◌, ◌≢◌, [], None, Err, IsTrue, IfOk, IfErr};
ghost use Rattle.picky_der_ser.specs.Headers.{CanBeOpen};
ghost use Rattle.picky_der_core.specs.declared.asn1.wrapper.Wrapper.TheVariants.{ImplicitList};
ghost use Rattle.picky_der_core.specs.OpenWrappers.{wrapper_of, wrap_if, HasTagNumberIfAny};
ghost use Rattle.picky_der_core.specs.WriterFaults.{IsOnceAtMost};
ghost use Rattle.picky_der_core.specs.Tag.{IsConstructedTag};
ghost use Rattle.picky_der_core.specs.Tree.{Tree};
ghost use Rattle.picky_der_core.specs.Wrapper.{can_vanish, HasTagNumber};
ghost use Rattle.picky_der_ser.specs.Calls.{Writes, RefusesWrite};

use super::Serializer;
use crate::{Header, List, Serialize};
use picky_der_core::asn1::{Newtype, Tag, Wrapper};
use picky_der_core::misc::WriteExt;
use picky_der_core::{Asn1DerError, Result};

impl<W: WriteExt> Serializer<W> {
    // Writes the value in this wrapper, inside the open ones.
    fn write_wrapped<T: Serialize>(&mut self, wrapper: Wrapper, value: &T) -> Result<usize>
        requires { IsTrue (can_vanish wrapper) }
        ensures wrote { IfOk result (λ n. Writes W.WriteExt.own
            (Tree.wrapped wrapper (T.meaning value.now)) self.old n self.new) }
        ensures failed { IfErr result (λ e. RefusesWrite W.WriteExt.own
            (Tree.wrapped wrapper (T.meaning value.now)) self.old e self.new) }
        ensures past { (HasTagNumber wrapper → ⊥) → self.old.failed ≡ None
            → (result ≡ Err Asn1DerError.UnsupportedValue) × (self.new.sink ≡ self.old.sink) }
        ensures counted { IsOnceAtMost (W.faults self.old.sink) (W.faults self.new.sink) }
        ensures continues { W.later self.old.sink self.new.sink }
    {
        if let Some(error) = self.earlier() {
            return Err(error);
        }
        if !wrapper.has_tag_number() {
            return Err(self.fail(Asn1DerError::UnsupportedValue));
        }
        if !self.levels.is_bare() {
            return self.write_nested(wrapper, value);
        }
        self.levels.wrap(wrapper);
        value.serialize(self)
    }

    // Writes the value in this wrapper, in the open one. That becomes a level, which is dropped if nothing is written
    // in it.
    #[inline(never)]
    fn write_nested<T: Serialize>(&mut self, wrapper: Wrapper, value: &T) -> Result<usize>
        requires wrapper { CanBeOpen wrapper }
        requires wrapped { self.old.around ≢ [] }
        requires had_not_failed { self.old.failed ≡ None }
        ensures wrote { IfOk result (λ n. Writes W.WriteExt.own
            (Tree.wrapped wrapper (T.meaning value.now)) self.old n self.new) }
        ensures failed { IfErr result (λ e. RefusesWrite W.WriteExt.own
            (Tree.wrapped wrapper (T.meaning value.now)) self.old e self.new) }
        ensures counted { IsOnceAtMost (W.faults self.old.sink) (W.faults self.new.sink) }
        ensures continues { W.later self.old.sink self.new.sink }
    {
        let mut mark = self.open(Header::Raw);
        let count = self.write_member_in(&mut mark, Some(wrapper), value)?;
        if count == 0 {
            self.levels.give_up();
            return Ok(0);
        }
        self.close(&mark)
    }

    /// Writes the value in a wrapper (X.690, 8.6.2, 8.7 and 8.14), which is opened inside the open ones.
    /// `Newtype::Plain` has none.
    ///
    /// `UnsupportedValue` for a tag number past 30: this is tested before the value, and nothing is written or
    /// allocated then. Any other error is the value's.
    pub fn serialize_newtype_struct<T: Serialize>(
        &mut self,
        kind: Newtype,
        value: &T,
    ) -> Result<usize>
        ensures wrote { IfOk result (λ n. Writes W.WriteExt.own
            (wrap_if (wrapper_of kind) (T.meaning value.now)) self.old n self.new) }
        ensures failed { IfErr result (λ e. RefusesWrite W.WriteExt.own
            (wrap_if (wrapper_of kind) (T.meaning value.now)) self.old e self.new) }
        ensures past { (HasTagNumberIfAny (wrapper_of kind) → ⊥) → self.old.failed ≡ None
            → (result ≡ Err Asn1DerError.UnsupportedValue) × (self.new.sink ≡ self.old.sink) }
        ensures counted { IsOnceAtMost (W.faults self.old.sink) (W.faults self.new.sink) }
        ensures continues { W.later self.old.sink self.new.sink }
    {
        match kind.wrapper() {
            Some(wrapper) => self.write_wrapped(wrapper, value),
            None => value.serialize(self),
        }
    }

    /// Writes a list under this tag, which replaces the list's own (X.690, 8.14), in the open wrappers.
    ///
    /// `UnsupportedValue` for a tag that isn't constructed, and for a tag number past 30: this is tested before the
    /// value, and nothing is written or allocated then. Any other error is the list's.
    pub fn serialize_implicit_list<T: List>(&mut self, tag: Tag, value: &T) -> Result<usize>
        ensures wrote { IfOk result (λ n. Writes W.WriteExt.own
            (Tree.wrapped (ImplicitList tag) (T.meaning value.now)) self.old n self.new) }
        ensures failed { IfErr result (λ e. RefusesWrite W.WriteExt.own
            (Tree.wrapped (ImplicitList tag) (T.meaning value.now)) self.old e self.new) }
        ensures past { (IsConstructedTag tag → ⊥) → self.old.failed ≡ None
            → (result ≡ Err Asn1DerError.UnsupportedValue) × (self.new.sink ≡ self.old.sink) }
        ensures counted { IsOnceAtMost (W.faults self.old.sink) (W.faults self.new.sink) }
        ensures continues { W.later self.old.sink self.new.sink }
    {
        self.write_wrapped(Wrapper::ImplicitList(tag.inner()), value)
    }
}
