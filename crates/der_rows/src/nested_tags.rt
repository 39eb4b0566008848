//! Explicit tags in one another.
ghost use Rattle.picky_der_de.specs.Facts.{facts_as};

use picky_asn1_der::asn1::ExplicitContextTag;
use picky_asn1_der::misc::{ReadExt, WriteExt};
use picky_asn1_der::{
    Deserialize, Deserializer, Result, Serialize, Serializer, Via, deserialize_as,
};

// Two explicit tags around a value, the first one outermost.
type Two<T, const A: u8, const B: u8> = ExplicitContextTag<ExplicitContextTag<T, B>, A>;

type Four<T, const A: u8, const B: u8, const C: u8, const D: u8> = Two<Two<T, C, D>, A, B>;

/// A number in the explicit tags 0 to 3, 0 outermost.
pub(crate) type FourTags = Four<u8, 0, 1, 2, 3>;

/// A number in the explicit tags 0 to 15, 0 outermost.
pub(crate) type SixteenTags = Four<Four<LastEight, 4, 5, 6, 7>, 0, 1, 2, 3>;

type Eight = Four<Four<u8, 12, 13, 14, 15>, 8, 9, 10, 11>;

/// A number in the explicit tags 8 to 15, as a type with a name: a proof about sixteen tags in one type doesn't end.
#[derive(Debug, Drop, PartialEq, Eq)]
pub(crate) struct LastEight(Eight);

impl Serialize for LastEight {
    ghost meaning = { λ x. ⟦<Eight as Serialize>⟧.meaning x.0 };

    fn serialize<W: WriteExt>(&self, serializer: &mut Serializer<W>) -> Result<usize> {
        self.0.serialize(serializer)
    }
}

impl Via for LastEight {
    type As = Eight;

    ghost parts = { λ x. x.0 };

    fn from_parts(value: Eight) -> LastEight {
        LastEight(value)
    }
}

impl Deserialize for LastEight {
    ghost shape = { ⟦<Eight as Deserialize>⟧.shape };

    ghost facts = { facts_as ⟦<Eight as Deserialize>⟧.facts (λ x. x.0) };

    ghost proved = { Prim.assumption };

    fn deserialize<R: ReadExt>(deserializer: &mut Deserializer<R>) -> Result<LastEight> {
        deserialize_as(deserializer)
    }
}
