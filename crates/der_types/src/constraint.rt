//! Types with a constraint: their values are the values of another type that the constraint allows (X.680, 49).
ghost use Rattle.std.specs.Prelude.{◌≡◌, Bool, true, false, IfSome, IfNone, IfOk, IfErr};
ghost use Rattle.picky_der_de.specs.Reading.{Reads, Refuses};
ghost use Rattle.picky_der_de.specs.RefusesBy.{RefusesBy};
ghost use Rattle.picky_der_de.specs.Rules.{tested_rule};
ghost use Rattle.der_types.specs.Constraints.{RefusesConstrained};

use picky_der_core::misc::ReadExt;
use picky_der_core::{Asn1DerError, Result};
use picky_der_de::{Deserialize, Deserializer};

/// A type with a constraint. Its values are the values of another type that the constraint allows.
pub trait Constrained: Sized {
    /// The type that is constrained.
    type Of: Deserialize;

    // The value as one of the constrained type, and which values of that type are allowed.
    ghost unconstrained: { Self → Self.Of };

    ghost allows: { Self.Of → Bool };

    /// Returns the value, or `None` if the constraint doesn't allow it.
    fn constrain(value: Self::Of) -> Option<Self>
        ensures some { IfSome result (λ it. unconstrained it ≡ value) }
        ensures none { IfNone result (allows value ≡ false) };

    // Each value is one that the constraint allows.
    ghost kept: { (it : Self) → allows (unconstrained it) ≡ true };

    // The encoding alone decides whether a value is allowed.
    ghost determined: { (x y : Self.Of) → Self.Of.meaning x ≡ Self.Of.meaning y → allows x ≡ allows y };
}

/// Reads a value of the constrained type and checks the constraint. It is the whole body of `Deserialize::deserialize`
/// for a type with a constraint.
///
/// `InvalidData` if the constraint doesn't allow the value; its element has then been consumed completely. Every other
/// error is one of the constrained type.
pub fn deserialize_constrained_as<C: Constrained, R: ReadExt>(de: &mut Deserializer<R>) -> Result<C>
    ensures ok { IfOk result (λ it. Reads C.Of.shape de.old de.new (C.Of.meaning (C.unconstrained it))) }
    ensures err { IfErr result (Refuses (λ it. C.Of.meaning (C.unconstrained it)) C.Of.shape de.old
        de.new) }
    ensures refused { IfErr result (RefusesConstrained C.Of.meaning C.Of.shape C.allows de.old
        de.new) }
    ensures refused_by { IfErr result (RefusesBy (tested_rule C.Of.meaning C.Of.shape C.unconstrained
        C.Of.facts.rule) de.old de.new) }
{
    let value = C::Of::deserialize(de)?;
    match C::constrain(value) {
        Some(it) => Ok(it),
        None => Err(de.refuse(Asn1DerError::InvalidData)),
    }
}
