//! Application tags, written (X.690, 8.14).
ghost use Rattle.std.specs.Prelude.{◌≡◌, ◌<◌, None, Err, IfOk, IfErr};
ghost use Rattle.picky_der_core.specs.declared.asn1.wrapper.Wrapper.TheVariants.{Application};
ghost use Rattle.picky_der_core.specs.WriterFaults.{IsOnceAtMost};
ghost use Rattle.picky_der_core.specs.Tree.{Tree};
ghost use Rattle.picky_der_ser.specs.Calls.{UntouchedUnlessFailed, Writes, RefusesWrite};

use super::Serializer;
use crate::{Header, Serialize};
use picky_der_core::asn1::Tag;
use picky_der_core::misc::WriteExt;
use picky_der_core::{Asn1DerError, Result};

impl<W: WriteExt> Serializer<W> {
    /// Writes the value under the explicit application tag with this number (X.690, 8.14), in the open wrappers. If
    /// nothing is written for the value, the tag has the length 0.
    ///
    /// `UnsupportedValue` for a number past 30: this is tested before the value, and nothing is written or allocated
    /// then. Any other error is the value's or the sink's, or `OutOfMemory`.
    pub fn serialize_application<T: Serialize>(&mut self, number: u8, value: &T) -> Result<usize>
        ensures wrote { IfOk result (λ n. Writes W.WriteExt.own
            (Tree.wrapped (Application number) (T.meaning value.now)) self.old n self.new) }
        ensures failed { IfErr result (λ e. RefusesWrite W.WriteExt.own
            (Tree.wrapped (Application number) (T.meaning value.now)) self.old e self.new) }
        ensures untouched { IfErr result (λ e. UntouchedUnlessFailed W.WriteExt.own self.old.sink e
            self.new.sink) }
        ensures past { 30 < number → self.old.failed ≡ None
            → (result ≡ Err Asn1DerError.UnsupportedValue) × (self.new.sink ≡ self.old.sink) }
        ensures counted { IsOnceAtMost (W.faults self.old.sink) (W.faults self.new.sink) }
        ensures continues { W.later self.old.sink self.new.sink }
    {
        if let Some(error) = self.earlier() {
            return Err(error);
        }
        if number > Tag::MAX_NUMBER {
            return Err(self.fail(Asn1DerError::UnsupportedValue));
        }
        let mut mark = self.open(Header::Application(number));
        self.write_member(&mut mark, value)?;
        self.close(&mark)
    }
}
