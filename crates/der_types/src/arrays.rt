//! Arrays as SEQUENCEs of as many members as there are slots.
ghost use Rattle.std.proofs.Common.{ap};
ghost use Rattle.picky_der_core.specs.Shape.{Shape};
ghost use Rattle.picky_der_core.specs.Tree.{ListKind};
ghost use Rattle.der_types.specs.ExactArrays.{array_values, repeated, repeated_layout};
ghost use Rattle.der_types.specs.Notation.{Notation};

use crate::{Exact, Notated};

impl<T: Notated + Copy + Default, const N: usize> Notated for [T; N] {
    ghost notation = { Notation.sequence (repeated N T.notation) };

    ghost denoted = { ap (Shape.fields ListKind.sequence) (repeated_layout N T.notation T.denoted) };
}

impl<T: Exact + Copy + Default, const N: usize> Exact for [T; N] {
    ghost values = { array_values T.values T.notation T.meaning N };

    ghost exact = { Prim.assumption };
}
