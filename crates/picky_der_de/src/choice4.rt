//! Alternatives of a choice, four at a time.
ghost use Rattle.picky_der_core.specs.Tree.{Tree};
ghost use Rattle.picky_der_core.specs.Shape.{Shapes};
ghost use Rattle.picky_der_core.specs.Equality.{IsThatOf};
ghost use Rattle.picky_der_de.specs.Choices.{equal_this_or_other};
ghost use Rattle.picky_der_de.specs.FourChoices.{one_by_one, choice4_facts, chosen_of4};

use crate::{Alternatives, Begins, Deserializer, OneOf};
use picky_der_core::Result;
use picky_der_core::asn1::Tag;
use picky_der_core::misc::ReadExt;

/// A value of one of four alternatives, or of a later one.
#[derive(Debug, Drop, PartialEq, Eq)]
pub enum Choice4<A, B, C, D, E> {
    /// The first alternative was chosen.
    First(A),
    /// The second was.
    Second(B),
    /// The third was.
    Third(C),
    /// The fourth was.
    Fourth(D),
    /// Another was.
    Later(E),
}

impl<A: PartialEq, B: PartialEq, C: PartialEq, D: PartialEq, E: PartialEq> Choice4<A, B, C, D, E> {
    /// Two are equal exactly if the same alternative was chosen, and its values are equal.
    pub fn equality()
        ensures { IsThatOf ⟦<Choice4<A, B, C, D, E> as PartialEq>⟧.eq one_by_one
            (equal_this_or_other A.eq (equal_this_or_other B.eq (equal_this_or_other C.eq
            (equal_this_or_other D.eq E.eq)))) }
    {}
}

impl<A: Begins, B: Begins, C: Begins, D: Begins, E: Alternatives> Alternatives
    for Choice4<A, B, C, D, E> {
    ghost shapes = { Shapes.more A.shape (Shapes.more B.shape (Shapes.more C.shape (Shapes.more D.shape E.shapes))) };

    ghost chosen = { chosen_of4 A.meaning B.meaning C.meaning D.meaning E.chosen };

    ghost facts = { choice4_facts A.facts A.meaning A.eq B.facts B.meaning B.eq C.facts C.meaning C.eq D.facts D.meaning D.eq
        E.facts };

    ghost meaning = { λ v. Tree.choice (chosen_of4 A.meaning B.meaning C.meaning D.meaning E.chosen v) };

    fn begins_with(tag: Tag) -> bool {
        OneOf::<A, OneOf<B, OneOf<C, OneOf<D, E>>>>::begins_with(tag)
    }

    fn deserialize_alternative<R: ReadExt>(
        tag: Tag,
        de: &mut Deserializer<R>,
    ) -> Result<Choice4<A, B, C, D, E>> {
        let value = OneOf::<A, OneOf<B, OneOf<C, OneOf<D, E>>>>::deserialize_alternative(tag, de)?;
        Ok(match value {
            OneOf::This(first) => Choice4::First(first),
            OneOf::Other(OneOf::This(second)) => Choice4::Second(second),
            OneOf::Other(OneOf::Other(OneOf::This(third))) => Choice4::Third(third),
            OneOf::Other(OneOf::Other(OneOf::Other(OneOf::This(fourth)))) => {
                Choice4::Fourth(fourth)
            }
            OneOf::Other(OneOf::Other(OneOf::Other(OneOf::Other(later)))) => Choice4::Later(later),
        })
    }

    ghost premise = { Prim.assumption };
}
