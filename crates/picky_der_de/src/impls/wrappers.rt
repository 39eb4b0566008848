//! Containers and context tags, as they are read.
ghost use Rattle.picky_der_core.specs.Shape.{Shape};
ghost use Rattle.picky_der_core.specs.declared.asn1.wrapper.Wrapper.TheVariants as wrapper;
ghost use Rattle.picky_der_de.specs.ContainerFacts.{wrapped_facts};

use crate::{Deserialize, Deserializer};
use picky_der_core::Result;
use picky_der_core::asn1::{
    BitStringAsn1Container, ExplicitContextTag, ImplicitContextTag, ImplicitList, Newtype,
    OctetStringAsn1Container, Tag,
};
use picky_der_core::misc::ReadExt;
use picky_der_ser::List;

impl<T: Deserialize> Deserialize for OctetStringAsn1Container<T> {
    ghost shape = { Shape.wrapped wrapper.OctetContainer T.shape };

    ghost facts = { wrapped_facts T.facts T.meaning T.eq wrapper.OctetContainer (λ it. it.0) };

    ghost proved = { Prim.assumption };

    fn deserialize<R: ReadExt>(de: &mut Deserializer<R>) -> Result<OctetStringAsn1Container<T>> {
        let value = de.deserialize_newtype_struct(Newtype::OctetContainer)?;
        Ok(OctetStringAsn1Container(value))
    }
}

impl<T: Deserialize> Deserialize for BitStringAsn1Container<T> {
    ghost shape = { Shape.wrapped wrapper.BitContainer T.shape };

    ghost facts = { wrapped_facts T.facts T.meaning T.eq wrapper.BitContainer (λ it. it.0) };

    ghost proved = { Prim.assumption };

    fn deserialize<R: ReadExt>(de: &mut Deserializer<R>) -> Result<BitStringAsn1Container<T>> {
        let value = de.deserialize_newtype_struct(Newtype::BitContainer)?;
        Ok(BitStringAsn1Container(value))
    }
}

impl<T: Deserialize, const N: u8> Deserialize for ExplicitContextTag<T, N> {
    ghost shape = { Shape.wrapped (wrapper.Explicit N) T.shape };

    ghost facts = { wrapped_facts T.facts T.meaning T.eq (wrapper.Explicit N) (λ it. it.0) };

    ghost proved = { Prim.assumption };

    fn deserialize<R: ReadExt>(de: &mut Deserializer<R>) -> Result<ExplicitContextTag<T, N>> {
        let value = de.deserialize_newtype_struct(Newtype::Explicit(N))?;
        Ok(ExplicitContextTag(value))
    }
}

impl<T: Deserialize, const N: u8> Deserialize for ImplicitContextTag<T, N> {
    ghost shape = { Shape.wrapped (wrapper.Implicit N) T.shape };

    ghost facts = { wrapped_facts T.facts T.meaning T.eq (wrapper.Implicit N) (λ it. it.0) };

    ghost proved = { Prim.assumption };

    fn deserialize<R: ReadExt>(de: &mut Deserializer<R>) -> Result<ImplicitContextTag<T, N>> {
        let value = de.deserialize_newtype_struct(Newtype::Implicit(N))?;
        Ok(ImplicitContextTag(value))
    }
}

impl<T: List + Deserialize, const TAG: u8> Deserialize for ImplicitList<T, TAG> {
    ghost shape = { Shape.wrapped (wrapper.ImplicitList TAG) T.shape };

    ghost facts = { wrapped_facts T.facts T.meaning T.eq (wrapper.ImplicitList TAG) (λ it. it.0) };

    ghost proved = { Prim.assumption };

    fn deserialize<R: ReadExt>(de: &mut Deserializer<R>) -> Result<ImplicitList<T, TAG>> {
        let value = de.deserialize_implicit_list(Tag::from(TAG))?;
        Ok(ImplicitList(value))
    }
}
