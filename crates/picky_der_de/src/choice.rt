//! Choices of any number of alternatives (X.690, 8.13).
ghost use Rattle.std.specs.Prelude.{◌≡◌, true, IfOk, IfErr};
ghost use Rattle.picky_der_core.specs.Shape.{Shape};
ghost use Rattle.picky_der_core.specs.Tree.{Tree};
ghost use Rattle.picky_der_de.specs.Reading.{Reads, Refuses};
ghost use Rattle.picky_der_de.specs.RefusesBy.{RefusesBy};
ghost use Rattle.picky_der_de.specs.Rules.{choice_rule};
ghost use Rattle.picky_der_de.specs.ChoiceFacts.{are_distinct};

use crate::{Alternatives, Deserializer};
use picky_der_core::Result;
use picky_der_core::misc::ReadExt;

/// A type whose values are those of alternatives: an enum with one field in each variant.
pub trait Choice: Sized {
    /// The alternatives, as `OneOf<A, OneOf<B, NoneOf>>` if there are two.
    type Alternatives: Alternatives;

    // The value of the alternative that was chosen.
    ghost parts: { Self → Self.Alternatives };

    /// The value of the type for this alternative.
    fn from_parts(value: Self::Alternatives) -> Self
        ensures { parts result ≡ value };
}

/// Reads a choice by its first byte. It is the whole body of `Deserialize::deserialize` of such a type. No byte may
/// begin two alternatives.
///
/// `InvalidData` if no alternative begins with the first byte. `InvalidData` too directly under an implicit tag, where
/// no byte distinguishes the alternatives. Any other error is that of `deserialize_enum`, or of the alternative's
/// `deserialize`.
pub fn deserialize_choice_as<T: Choice, R: ReadExt>(de: &mut Deserializer<R>) -> Result<T>
    requires distinct { are_distinct T.Alternatives.shapes ≡ true }
    ensures ok { IfOk result (λ value. Reads (Shape.choice T.Alternatives.shapes) de.old de.new
        (Tree.choice (T.Alternatives.chosen (T.parts value)))) }
    ensures err { IfErr result (Refuses
        (λ value. Tree.choice (T.Alternatives.chosen (T.parts value)))
        (Shape.choice T.Alternatives.shapes) de.old de.new) }
    ensures refused_by { IfErr result (RefusesBy (choice_rule T.Alternatives.facts.rule)
        de.old de.new) }
{
    let tag = match de.deserialize_enum("", &[]) {
        Ok(tag) => tag,
        Err(error) => return Err(error),
    };
    Ok(T::from_parts(T::Alternatives::deserialize_alternative(tag, de)?))
}
