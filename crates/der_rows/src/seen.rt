//! A look at the tag before a value.
ghost use Rattle.std.specs.Prelude.{◌^◌, ◌-◌, nat_eq, refl};
ghost use Rattle.std.proofs.Common.{rules};
ghost use Rattle.picky_der_core.specs.Integer.{unsigned_tree};
ghost use Rattle.picky_der_de.specs.Facts.{number_facts};

use picky_asn1_der::misc::{ReadExt, WriteExt};
use picky_asn1_der::{Deserialize, Deserializer, Result, Serialize, Serializer};

/// A number, and the tag, as a byte, that was seen before it was read. Only numbers are compared, since a tree has no
/// more.
#[derive(Debug, Drop)]
pub(crate) struct Seen {
    tag: u8,
    number: u8,
}

impl PartialEq for Seen {
    ghost eq = { λ x y. nat_eq x.number y.number };

    ghost laws = { Prim.search rules };

    fn eq(&self, other: &Seen) -> bool {
        self.number == other.number
    }
}

impl Serialize for Seen {
    ghost meaning = { λ x. unsigned_tree (2 ^ 8 - 1) x.number };

    fn serialize<W: WriteExt>(&self, serializer: &mut Serializer<W>) -> Result<usize> {
        serializer.serialize_u8(self.number)
    }
}

impl Deserialize for Seen {
    ghost shape = { ⟦<u8 as Deserialize>⟧.shape };

    ghost facts = { number_facts (2 ^ 8 - 1) refl (λ x. x.number) (λ x y. nat_eq x.number y.number) (λ x y h. h) };

    ghost proved = { Prim.assumption };

    fn deserialize<R: ReadExt>(deserializer: &mut Deserializer<R>) -> Result<Seen> {
        let tag = match deserializer.deserialize_identifier() {
            Ok(tag) => tag.inner(),
            Err(error) => return Err(error),
        };
        let number = deserializer.deserialize_u8()?;
        Ok(Seen { tag, number })
    }
}
