//! Bools, as they are read.
ghost use Rattle.std.specs.Prelude.{IfOk, IfErr};
ghost use Rattle.picky_der_core.specs.Primitive.{Primitive, PrimitiveShape};
ghost use Rattle.picky_der_core.specs.Shape.{Shape};
ghost use Rattle.picky_der_de.specs.Steps.{UsesNoMemory};
ghost use Rattle.picky_der_de.specs.Reading.{ReadsPrimitive, RefusesPrimitive};
ghost use Rattle.picky_der_de.specs.Facts.{boolean_facts};

use crate::{Boolean, Deserialize, Deserializer};
use picky_der_core::Result;
use picky_der_core::misc::ReadExt;

impl Deserialize for bool {
    ghost shape = { Shape.primitive PrimitiveShape.boolean };

    ghost facts = { boolean_facts };

    ghost proved = { Prim.assumption };

    #[inline(always)]
    fn deserialize<R: ReadExt>(de: &mut Deserializer<R>) -> Result<bool>
        ensures read { IfOk result (λ value. ReadsPrimitive PrimitiveShape.boolean
            de.old de.new (Primitive.boolean value)) }
        ensures refused { IfErr result (RefusesPrimitive Primitive.boolean PrimitiveShape.boolean
            de.old de.new) }
        ensures memory { IfErr result (UsesNoMemory de.old de.new) }
    {
        de.read_plain::<Boolean, bool>()
    }
}
