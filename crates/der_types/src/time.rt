//! Times of RFC 5280.
ghost use Rattle.std.specs.Prelude.{◌≡◌, ◌<◌, refl, IfSome, IfNone};
ghost use Rattle.picky_der_core.specs.Shape.{Shape};
ghost use Rattle.picky_der_de.specs.declared.alternatives.OneOf.TheVariants.{This, Other};
ghost use Rattle.picky_der_de.specs.ChoiceFacts.{choice_facts};
ghost use Rattle.der_types.specs.declared.time.Time.TheVariants.{Utc, Generalized};
ghost use Rattle.der_types.specs.ExactChoices.{choice_values};
ghost use Rattle.der_types.specs.Notation.{Notation};
ghost use Rattle.der_types.specs.Sameness.{alternatives_sameness};
ghost use Rattle.der_types.specs.SampleTrees.{exact_example};

use crate::{DateTime, Exact, ExactAlternatives, LaterTime, Notated, NotatedAlternatives, UtcTime};
use picky_der_core::Result;
use picky_der_core::asn1::Tag;
use picky_der_core::misc::{ReadExt, WriteExt};
use picky_der_de::OneOf::{Other, This};
use picky_der_de::{
    Alternatives, Begins, Choice, Deserialize, Deserializer, Faithful, FaithfulAlternatives,
    Inhabited, NoneOf, OneOf, deserialize_choice_as,
};
use picky_der_ser::{Serialize, Serializer};

/// A time of a certificate (RFC 5280, 4.1.2.5), as a CHOICE: a second of the years 1950 to 9999. Each has one form, by
/// its year. Its order is that of time.
#[derive(Clone, Copy, PartialEq, Eq, PartialOrd, Ord, Hash)]
pub enum Time {
    /// A UTCTime: up to 2049.
    Utc(UtcTime),
    /// A GeneralizedTime: from 2050 on.
    Generalized(LaterTime),
}

impl Time {
    ghost use Rattle.der_types.specs.TimeChoice.{date_time_of};

    /// This second, or `None` where its year is before 1950.
    pub fn new(at: DateTime) -> Option<Time>
        ensures some { IfSome result (λ it. date_time_of it ≡ at) }
        ensures none { IfNone result (at.year < 1950) }
    {
        if let Some(time) = LaterTime::new(at) {
            return Some(Time::Generalized(time));
        }
        match UtcTime::new(at) {
            Some(time) => Some(Time::Utc(time)),
            None => None,
        }
    }

    /// Its date and time.
    pub fn date_time(self) -> DateTime
        ensures { result ≡ date_time_of self }
    {
        match self {
            Time::Utc(time) => time.date_time(),
            Time::Generalized(time) => time.date_time(),
        }
    }
}

type Parts = OneOf<UtcTime, OneOf<LaterTime, NoneOf>>;

impl Choice for Time {
    type Alternatives = Parts;

    ghost parts = { elim [ Utc time ↦ This time | Generalized time ↦ Other (This time) ] };

    fn from_parts(value: Parts) -> Time {
        match value {
            This(time) => Time::Utc(time),
            Other(This(time)) => Time::Generalized(time),
        }
    }
}

impl Serialize for Time {
    ghost meaning = { λ it. ⟦<Parts as Alternatives>⟧.meaning (⟦<Time as Choice>⟧.parts it) };

    fn serialize<W: WriteExt>(&self, serializer: &mut Serializer<W>) -> Result<usize> {
        match self {
            Time::Utc(time) => serializer.serialize_choice(time),
            Time::Generalized(time) => serializer.serialize_choice(time),
        }
    }
}

impl Deserialize for Time {
    ghost shape = { Shape.choice ⟦<Parts as Alternatives>⟧.shapes };

    ghost facts = { choice_facts ⟦<Parts as Alternatives>⟧.facts refl ⟦<Self as Choice>⟧.parts ⟦<Self as PartialEq>⟧.eq
        (elim [ Utc _ ↦ elim [ Utc _ ↦ λ h. h | _ ↦ λ h. h ] | _ ↦ elim [ Utc _ ↦ λ h. h | _ ↦ λ h. h ] ]) };

    ghost proved = { Prim.assumption };

    fn deserialize<R: ReadExt>(deserializer: &mut Deserializer<R>) -> Result<Time> {
        deserialize_choice_as(deserializer)
    }
}

impl Begins for Time {
    fn begins_with(tag: Tag) -> bool {
        <Parts as Alternatives>::begins_with(tag)
    }
}

impl Notated for Time {
    ghost notation = { Notation.choice ⟦<Parts as NotatedAlternatives>⟧.alternatives_notation };

    ghost denoted = { refl };
}

impl Exact for Time {
    ghost values = { choice_values ⟦<Parts as ExactAlternatives>⟧.chosen_values
        ⟦<Parts as NotatedAlternatives>⟧.alternatives_notation
        ⟦<Parts as Alternatives>⟧.chosen ⟦<Self as Choice>⟧.parts
        (elim [
          | This time ↦ (Utc time, refl)
          | Other (This time) ↦ (Generalized time, refl)
          | Other (Other none)
              ↦ elim none [ ]
        ]) };

    ghost exact = { Prim.assumption };
}

impl Faithful for Time {
    ghost sameness = { alternatives_sameness ⟦<Parts as FaithfulAlternatives>⟧.sameness ⟦<Parts as Alternatives>⟧.facts.eq
        ⟦<Parts as Alternatives>⟧.chosen ⟦<Self as Choice>⟧.parts ⟦<Self as PartialEq>⟧.eq
        (elim [ Utc _ ↦ elim [ Utc _ ↦ λ h. h | _ ↦ λ h. h ] | _ ↦ elim [ Utc _ ↦ λ h. h | _ ↦ λ h. h ] ]) };

    ghost respects = { Prim.assumption };
}

impl Inhabited for Time {
    ghost example = { exact_example ⟦<Self as Exact>⟧.values ⟦<Self as Notated>⟧.notation ⟦<Self as Serialize>⟧.meaning refl
        Prim.assumption };
}
