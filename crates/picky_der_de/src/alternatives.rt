//! The alternatives of a choice, of any number.
ghost use Rattle.std.specs.Prelude.{◌↔◌, IsTrue, IfOk, IfErr};
ghost use Rattle.picky_der_core.specs.Tree.{Tree};
ghost use Rattle.picky_der_core.specs.Shape.{Shapes, firsts_of, contains};
ghost use Rattle.picky_der_core.specs.Equality.{IsThatOf};
ghost use Rattle.picky_der_de.specs.RefusesBy.{RefusesBy};
ghost use Rattle.picky_der_de.specs.Choices.{ReadsAfter, RefusesAfter, chosen_of, equal_this_or_other};
ghost use Rattle.picky_der_de.specs.ChoiceFacts.{ChoiceFacts, no_choice_facts, this_or_other_facts};

use crate::{Begins, Deserializer};
use picky_der_core::asn1::Tag;
use picky_der_core::misc::ReadExt;
use picky_der_core::{Asn1DerError, Result};
use std::convert::Infallible;

/// A value of the first alternative, or of a later one. `OneOf<A, OneOf<B, NoneOf>>` holds an `A` as `This` and a `B`
/// as `Other(This)`.
#[derive(Debug, Drop, PartialEq, Eq)]
pub enum OneOf<A, B> {
    /// The first alternative was chosen.
    This(A),
    /// Another was.
    Other(B),
}

impl<A: PartialEq, B: PartialEq> OneOf<A, B> {
    /// Two are equal exactly if the same alternative was chosen, and its values are equal.
    pub fn equality()
        ensures { IsThatOf ⟦<OneOf<A, B> as PartialEq>⟧.eq (λ value. value)
            (equal_this_or_other A.eq B.eq) }
    {}
}

/// The end of the alternatives. There is no value of it.
pub type NoneOf = Infallible;

/// The alternatives of a choice, in order: `NoneOf` has none, and `OneOf<A, B>` has `A` and then the alternatives `B`.
///
/// The bound `Drop` is there for the checker: without it an `impl Choice` whose alternatives are all structs and enums
/// without parameters isn't proved.
pub trait Alternatives: Drop + Sized {
    // A shape for each alternative.
    ghost shapes: { Shapes };

    // The tree of the value that was chosen, as a value of its own type.
    ghost chosen: { Self → Tree };

    // What the type says of its values: that these trees determine them. It follows from the premise.
    ghost facts: { ChoiceFacts Self shapes chosen };

    // The tree of the value as a choice.
    ghost meaning: { Self → Tree };

    /// Whether a value of one of them can begin with this byte.
    fn begins_with(tag: Tag) -> bool
        ensures { IsTrue result ↔ IsTrue (contains (firsts_of shapes) tag) };

    /// Reads a value of the first alternative that can begin with this byte. The byte was peeked and is next.
    ///
    /// `InvalidData` if no alternative begins with it. Any other error is the alternative's.
    fn deserialize_alternative<R: ReadExt>(tag: Tag, de: &mut Deserializer<R>) -> Result<Self>
        ensures ok { IfOk result (λ value. ReadsAfter shapes tag de.old de.new (chosen value)) }
        ensures err { IfErr result (RefusesAfter chosen shapes tag de.old de.new) }
        ensures refused_by { IfErr result (RefusesBy (facts.rule tag) de.old de.new) };

    // The premise, proved.
    ghost premise: { facts.Premise };
}

impl Alternatives for NoneOf {
    ghost shapes = { Shapes.none };

    ghost chosen = { λ v. elim v [ ] };

    ghost facts = { no_choice_facts (λ v. elim v [ ]) (λ v. elim v [ ]) };

    ghost meaning = { λ v. elim v [ ] };

    fn begins_with(_tag: Tag) -> bool {
        false
    }

    fn deserialize_alternative<R: ReadExt>(_tag: Tag, de: &mut Deserializer<R>) -> Result<NoneOf> {
        Err(de.refuse(Asn1DerError::InvalidData))
    }

    ghost premise = { Prim.assumption };
}

impl<A: Begins, B: Alternatives> Alternatives for OneOf<A, B> {
    ghost shapes = { Shapes.more A.shape B.shapes };

    ghost chosen = { chosen_of A.meaning B.chosen };

    ghost facts = { this_or_other_facts A.facts A.meaning A.eq B.facts };

    ghost meaning = { λ v. Tree.choice (chosen_of A.meaning B.chosen v) };

    fn begins_with(tag: Tag) -> bool {
        A::begins_with(tag) || B::begins_with(tag)
    }

    fn deserialize_alternative<R: ReadExt>(
        tag: Tag,
        de: &mut Deserializer<R>,
    ) -> Result<OneOf<A, B>> {
        if A::begins_with(tag) {
            return Ok(OneOf::This(A::deserialize(de)?));
        }
        Ok(OneOf::Other(B::deserialize_alternative(tag, de)?))
    }

    ghost premise = { Prim.assumption };
}
