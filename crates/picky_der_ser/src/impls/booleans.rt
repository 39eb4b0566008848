//! What bools mean.
ghost use Rattle.picky_der_core.specs.Primitive.{Primitive};
ghost use Rattle.picky_der_core.specs.Tree.{Tree};
ghost use Rattle.picky_der_ser.specs.Calls.{WritesPrimitive};

use crate::{Serialize, Serializer};
use picky_der_core::Result;
use picky_der_core::misc::WriteExt;

impl Serialize for bool {
    ghost meaning = { λ b. Tree.primitive (Primitive.boolean b) };

    #[inline(always)]
    fn serialize<W: WriteExt>(&self, ser: &mut Serializer<W>) -> Result<usize>
        ensures plain { WritesPrimitive W.WriteExt.own (Primitive.boolean self.now) ser.old result ser.new }
    {
        ser.serialize_bool(*self)
    }
}
