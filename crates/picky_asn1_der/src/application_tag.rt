//! Application tags around values (X.690, 8.14).
ghost use Rattle.std.specs.Prelude.{◌≡◌, IfOk, IfErr};
ghost use Rattle.picky_der_core.specs.declared.asn1.wrapper.Wrapper.TheVariants.{Application};
ghost use Rattle.picky_der_core.specs.Equality.{IsThatOf, IsCopied};
ghost use Rattle.picky_der_core.specs.Tree.{Tree};
ghost use Rattle.picky_der_core.specs.Shape.{Shape};
ghost use Rattle.picky_der_ser.specs.Calls.{WritesWhole};
ghost use Rattle.picky_der_de.specs.ContainerFacts.{wrapped_facts};

use crate::asn1::Tag;
use crate::de::Begins;
use crate::misc::{ReadExt, WriteExt};
use crate::{Asn1DerError, Deserialize, Deserializer, Result, Serialize, Serializer};
use std::fmt::Debug;
use std::hash::Hash;

/// A value under the application tag with the number `T`, at most 30: `60+T`, around its encoding.
#[derive(Debug, Clone, Drop, PartialEq, Eq, PartialOrd, Ord, Hash)]
pub struct ApplicationTag<V, const T: u8>(pub V)
where
    V: Debug + PartialEq;

/// Two values under one application tag are equal exactly if they are equal without it.
pub fn equality<V: Debug + PartialEq, const T: u8>()
    ensures { IsThatOf ⟦<ApplicationTag<V, T> as PartialEq>⟧.eq (λ tagged. tagged.0) V.eq }
{}

/// Two values under one application tag are ordered as they are without it.
pub fn order<V: Debug + Ord, const T: u8>()
    ensures { IsThatOf ⟦<ApplicationTag<V, T> as Ord>⟧.cmp (λ tagged. tagged.0) V.cmp }
{}

/// A copy of a value under an application tag holds a copy of it.
pub fn copies<V: Debug + PartialEq + Clone, const T: u8>()
    ensures { IsCopied ⟦<ApplicationTag<V, T> as Clone>⟧.is_clone (λ tagged. tagged.0) V.is_clone }
{}

impl<V: Debug + PartialEq + Clone, const T: u8> ApplicationTag<V, T> {
    /// A copy. `OutOfMemory` if an allocation fails.
    pub fn clone(&self) -> Result<ApplicationTag<V, T>>
        ensures same { IfOk result (λ copy. V.is_clone self.now.0 copy.0) }
        ensures memory { IfErr result (λ e. e ≡ Asn1DerError.OutOfMemory) }
    {
        Ok(ApplicationTag(self.0.clone()?))
    }
}

impl<V: Debug + PartialEq, const T: u8> From<V> for ApplicationTag<V, T> {
    ghost from_gives = { λ value tagged. tagged.0 ≡ value };

    fn from(value: V) -> ApplicationTag<V, T> {
        ApplicationTag(value)
    }
}

impl<V: Serialize + Debug + PartialEq, const T: u8> Serialize for ApplicationTag<V, T> {
    ghost meaning = { λ x. Tree.wrapped (Application T) (V.meaning x.0) };

    fn serialize<W: WriteExt>(&self, ser: &mut Serializer<W>) -> Result<usize>
        ensures whole { WritesWhole W.WriteExt.own
            (Tree.wrapped (Application T) (V.meaning self.now.0)) ser.old result ser.new }
    {
        ser.serialize_application(T, &self.0)
    }
}

impl<V: Deserialize + Debug, const T: u8> Deserialize for ApplicationTag<V, T> {
    ghost shape = { Shape.wrapped (Application T) V.shape };

    ghost facts = { wrapped_facts V.facts V.meaning V.eq (Application T) (λ it. it.0) };

    ghost proved = { Prim.assumption };

    fn deserialize<R: ReadExt>(de: &mut Deserializer<R>) -> Result<ApplicationTag<V, T>> {
        let value = de.deserialize_application(T)?;
        Ok(ApplicationTag(value))
    }
}

impl<V: Deserialize + Debug, const T: u8> Begins for ApplicationTag<V, T> {
    fn begins_with(tag: Tag) -> bool {
        T <= Tag::MAX_NUMBER && tag.inner() == 0x60 + T
    }
}
