//! Choices whose values are exactly the values of their CHOICEs.
ghost use Rattle.picky_der_de.specs.FourChoices.{one_by_one};
ghost use Rattle.der_types.specs.ExactChoices.{ChoiceValues, ProvedChoice, no_choice_values, this_or_other_values};
ghost use Rattle.der_types.specs.ExactChoices.{choice_as};
ghost use Rattle.der_types.specs.ExactFourChoices.{one_of_four};

use crate::{Exact, NotatedAlternatives};
use picky_der_de::{Begins, Choice4, NoneOf, OneOf};

/// Alternatives whose values are exactly the values of the alternatives of a CHOICE.
pub trait ExactAlternatives: NotatedAlternatives {
    // What the alternatives state about their values, and what they have to prove for that.
    ghost chosen_values: { ChoiceValues Self };

    // The proof, and that the statement is about these alternatives.
    ghost exact_alternatives: { ProvedChoice chosen_values Self.alternatives_notation Self.chosen };
}

impl ExactAlternatives for NoneOf {
    ghost chosen_values = { no_choice_values (λ v. elim v [ ]) (λ v. elim v [ ]) };

    ghost exact_alternatives = { Prim.assumption };
}

impl<A: Exact + Begins, B: ExactAlternatives> ExactAlternatives for OneOf<A, B> {
    ghost chosen_values = { this_or_other_values A.values A.notation A.meaning B.chosen_values B.alternatives_notation B.chosen };

    ghost exact_alternatives = { Prim.assumption };
}

impl<
    A: Exact + Begins,
    B: Exact + Begins,
    C: Exact + Begins,
    D: Exact + Begins,
    E: ExactAlternatives,
> ExactAlternatives for Choice4<A, B, C, D, E> {
    ghost chosen_values = { choice_as ⟦<OneOf<A, OneOf<B, OneOf<C, OneOf<D, E>>>> as ExactAlternatives>⟧.chosen_values one_by_one
        one_of_four };

    ghost exact_alternatives = { Prim.assumption };
}
