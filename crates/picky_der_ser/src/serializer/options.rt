//! Values that may be missing.
ghost use Rattle.std.specs.Prelude.{IfOk, IfErr};
ghost use Rattle.picky_der_core.specs.WriterFaults.{IsOnceAtMost};
ghost use Rattle.picky_der_ser.specs.Calls.{Writes, RefusesWrite, WritesAbsent};

use super::Serializer;
use crate::Serialize;
use picky_der_core::Result;
use picky_der_core::misc::WriteExt;

impl<W: WriteExt> Serializer<W> {
    /// Drops the open wrappers, writes nothing and returns 0. Nothing is allocated. The only error is the earlier one,
    /// if the serializer has failed.
    pub fn serialize_none(&mut self) -> Result<usize>
        ensures { WritesAbsent W.WriteExt.own self.old result self.new }
    {
        if let Some(error) = self.earlier() {
            return Err(error);
        }
        self.levels.give_up();
        self.levels.close_wrapper();
        Ok(0)
    }

    /// Writes the value as it is.
    pub fn serialize_some<T: Serialize>(&mut self, value: &T) -> Result<usize>
        ensures wrote { IfOk result (λ n. Writes W.WriteExt.own
            (T.meaning value.now) self.old n self.new) }
        ensures failed { IfErr result (λ e. RefusesWrite W.WriteExt.own
            (T.meaning value.now) self.old e self.new) }
        ensures counted { IsOnceAtMost (W.faults self.old.sink) (W.faults self.new.sink) }
        ensures continues { W.later self.old.sink self.new.sink }
    {
        value.serialize(self)
    }
}
