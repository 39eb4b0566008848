//! Values that are written by calls of their own.

ghost use Rattle.picky_der_core.specs.Primitive.{Primitive};

use picky_asn1_der::asn1::Tag;
use picky_asn1_der::misc::WriteExt;
use picky_asn1_der::{Result, Serialize, Serializer, ser};

/// Writes its bytes unchanged.
#[derive(Drop)]
pub(crate) struct Untouched;

impl Serialize for Untouched {
    ghost use Rattle.std.specs.Prelude.{◌∷◌, []};
    ghost use Rattle.picky_der_core.specs.Tree.{Tree};

    ghost meaning = { λ s. Tree.raw (0x02 ∷ 0x01 ∷ 0x07 ∷ []) };

    fn serialize<W: WriteExt>(&self, serializer: &mut Serializer<W>) -> Result<usize> {
        serializer.serialize_raw(&[0x02, 0x01, 0x07])
    }
}

/// Writes 7, and then begins a sequence that it leaves open with a member in it.
#[derive(Drop)]
pub(crate) struct Littering;

impl Serialize for Littering {
    ghost use Rattle.picky_der_core.specs.Tree.{Tree};

    ghost meaning = { λ _. Tree.primitive (Primitive.unsigned 7) };

    fn serialize<W: WriteExt>(&self, serializer: &mut Serializer<W>) -> Result<usize> {
        let count = serializer.serialize_u8(7)?;
        ser::Sequence::serialize_lazy(serializer, Tag::SEQUENCE).serialize_element(&1u8)?;
        Ok(count)
    }
}

/// Writes nothing, and then begins a sequence that it leaves open with a member in it.
#[derive(Drop)]
pub(crate) struct Discarding;

impl Serialize for Discarding {
    ghost use Rattle.picky_der_core.specs.Tree.{Tree};

    ghost meaning = { λ _. Tree.absent };

    fn serialize<W: WriteExt>(&self, serializer: &mut Serializer<W>) -> Result<usize> {
        let count = serializer.serialize_none()?;
        ser::Sequence::serialize_lazy(serializer, Tag::SEQUENCE).serialize_element(&1u8)?;
        Ok(count)
    }
}
