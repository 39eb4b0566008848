//! The alternatives of choices, as they are written.
ghost use Rattle.std.specs.Prelude.{IfOk, IfErr};
ghost use Rattle.picky_der_core.specs.Tree.{Tree};
ghost use Rattle.picky_der_core.specs.WriterFaults.{IsOnceAtMost};
ghost use Rattle.picky_der_ser.specs.Calls.{Writes, RefusesWrite};

use super::Serializer;
use crate::Serialize;
use picky_der_core::Result;
use picky_der_core::misc::WriteExt;

impl<W: WriteExt> Serializer<W> {
    /// Writes the value of an alternative of a choice, as the value itself is written. Each error is the value's.
    #[tactic(auto, using(crate::proofs::Alike::choice))]
    pub fn serialize_choice<T: Serialize>(&mut self, value: &T) -> Result<usize>
        ensures wrote { IfOk result (λ n. Writes W.WriteExt.own
            (Tree.choice (T.meaning value.now)) self.old n self.new) }
        ensures failed { IfErr result (λ e. RefusesWrite W.WriteExt.own
            (Tree.choice (T.meaning value.now)) self.old e self.new) }
        ensures counted { IsOnceAtMost (W.faults self.old.sink) (W.faults self.new.sink) }
        ensures continues { W.later self.old.sink self.new.sink }
    {
        value.serialize(self)
    }
}
