//! Containers and context tags, as they are written.
ghost use Rattle.picky_der_core.specs.declared.asn1.wrapper.Wrapper.TheVariants.{OctetContainer, BitContainer};
ghost use Rattle.picky_der_core.specs.declared.asn1.wrapper.Wrapper.TheVariants.{Explicit, Implicit, ImplicitList};
ghost use Rattle.picky_der_core.specs.Tree.{Tree};

use crate::{List, Serialize, Serializer};
use picky_der_core::Result;
use picky_der_core::asn1::{
    BitStringAsn1Container, ExplicitContextTag, ImplicitContextTag, ImplicitList, Newtype,
    OctetStringAsn1Container, Tag,
};
use picky_der_core::misc::WriteExt;

impl<T: Serialize> Serialize for OctetStringAsn1Container<T> {
    ghost meaning = { λ x. Tree.wrapped OctetContainer (T.meaning x.0) };

    fn serialize<W: WriteExt>(&self, ser: &mut Serializer<W>) -> Result<usize> {
        ser.serialize_newtype_struct(Newtype::OctetContainer, &self.0)
    }
}

impl<T: Serialize> Serialize for BitStringAsn1Container<T> {
    ghost meaning = { λ x. Tree.wrapped BitContainer (T.meaning x.0) };

    fn serialize<W: WriteExt>(&self, ser: &mut Serializer<W>) -> Result<usize> {
        ser.serialize_newtype_struct(Newtype::BitContainer, &self.0)
    }
}

impl<T: Serialize, const N: u8> Serialize for ExplicitContextTag<T, N> {
    ghost meaning = { λ x. Tree.wrapped (Explicit N) (T.meaning x.0) };

    fn serialize<W: WriteExt>(&self, ser: &mut Serializer<W>) -> Result<usize> {
        ser.serialize_newtype_struct(Newtype::Explicit(N), &self.0)
    }
}

impl<T: Serialize, const N: u8> Serialize for ImplicitContextTag<T, N> {
    ghost meaning = { λ x. Tree.wrapped (Implicit N) (T.meaning x.0) };

    fn serialize<W: WriteExt>(&self, ser: &mut Serializer<W>) -> Result<usize> {
        ser.serialize_newtype_struct(Newtype::Implicit(N), &self.0)
    }
}

impl<T: List, const TAG: u8> Serialize for ImplicitList<T, TAG> {
    ghost meaning = { λ x. Tree.wrapped (ImplicitList TAG) (T.meaning x.0) };

    fn serialize<W: WriteExt>(&self, ser: &mut Serializer<W>) -> Result<usize> {
        ser.serialize_implicit_list(Tag::from(TAG), &self.0)
    }
}
