//! Values that may be absent.
ghost use Rattle.std.specs.Prelude.{◌≡◌, MatchOption, IsSomeAnd};
ghost use Rattle.std.specs.Option.{option_eq};
ghost use Rattle.picky_der_core.specs.Equality.{IsThatOf, IsCopied};
ghost use Rattle.picky_der_ser.specs.Meaning.{maybe_more, option_meaning};

use crate::{Sequence, Serialize, SerializeMember, Serializer};
use picky_der_core::Result;
use picky_der_core::misc::WriteExt;

impl<T: Serialize> Serialize for Option<T> {
    ghost meaning = { option_meaning T.meaning };

    fn serialize<W: WriteExt>(&self, ser: &mut Serializer<W>) -> Result<usize> {
        match self {
            Some(value) => ser.serialize_some(value),
            None => ser.serialize_none(),
        }
    }
}

/// A member that may be absent (ASN.1's OPTIONAL). An absent member isn't written, and the other members are written
/// as without it.
#[derive(Debug, Clone, Drop, PartialEq, Eq)]
pub struct Optional<T>(pub Option<T>);

impl<T: PartialEq> Optional<T> {
    /// Two are equal exactly if both are absent, or both are there and equal.
    pub fn equality()
        ensures { IsThatOf ⟦<Optional<T> as PartialEq>⟧.eq (λ member. member.0) (option_eq T.eq) }
    {}
}

impl<T: Clone> Optional<T> {
    /// A copy of an absent member is absent. A copy of a member that is there holds a copy of the value.
    pub fn copies()
        ensures { IsCopied ⟦<Optional<T> as Clone>⟧.is_clone (λ member. member.0)
            (λ member copy. MatchOption member (copy ≡ None)
            (λ value. IsSomeAnd copy (T.is_clone value))) }
    {}
}

/// A member that may be absent, by reference, for the field of a struct.
#[derive(Drop)]
pub struct OptionalRef<'a, T>(pub &'a Option<T>);

impl<T: Serialize> SerializeMember for Optional<T> {
    ghost prepend = { λ member. maybe_more T.meaning member.0 };

    fn serialize_member<W: WriteExt>(&self, sequence: &mut Sequence<'_, W>) -> Result<()> {
        OptionalRef(&self.0).serialize_member(sequence)
    }
}

impl<T: Serialize> SerializeMember for OptionalRef<'_, T> {
    ghost prepend = { λ member. maybe_more T.meaning member.0.now };

    fn serialize_member<W: WriteExt>(&self, sequence: &mut Sequence<'_, W>) -> Result<()> {
        match self.0 {
            Some(value) => sequence.serialize_element(value),
            None => Ok(()),
        }
    }
}
