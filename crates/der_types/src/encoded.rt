//! Values that are kept together with their encoding, for open types.
ghost use Rattle.std.proofs.Common.{rules};
ghost use Rattle.std.specs.Prelude.{◌≡◌, IfOk, IfErr, refl};
ghost use Rattle.std.specs.Cmp.{partial_order_from_own_ties};
ghost use Rattle.std.specs.Cmp.Rules.{comparing};
ghost use Rattle.std.specs.Cmp.Lexicographic.{slice_cmp};
ghost use Rattle.std.specs.Ordering.{on, nat_cmp, as_partial_cmp};
ghost use Rattle.picky_der_core.specs.Equality.{IsThatOf};
ghost use Rattle.picky_der_core.specs.Tree.{Tree};
ghost use Rattle.picky_der_core.specs.Shape.{Shape};
ghost use Rattle.picky_der_de.specs.Facts.{raw_facts, ruled};
ghost use Rattle.picky_der_de.specs.PlainRules.{raw_rule};
ghost use Rattle.picky_der_de.specs.Rules.{tested_rule};
ghost use Rattle.picky_der_de.specs.Twins.{IsNoValue};
ghost use Rattle.picky_der_de.specs.Whole.{IsEncodingOf};
ghost use Rattle.der_types.specs.ExactEncoded.{encoded_values};
ghost use Rattle.der_types.specs.MadeValues.{vec_of};
ghost use Rattle.der_types.specs.Notation.{Notation};

use crate::{Exact, Notated};
use picky_asn1_der::Asn1RawDer;
use picky_der_core::asn1::Tag;
use picky_der_core::misc::{ReadExt, WriteExt};
use picky_der_core::{Asn1DerError, Result};
use picky_der_de::{Begins, Deserialize, Deserializer, TryVia, from_der, try_deserialize_as};
use picky_der_ser::{Serialize, Serializer};
use std::alloc::AllocError;
use std::cmp::Ordering;
use std::fmt;

/// A value of the type `T` together with its encoding, for a member whose type another member decides (ANY DEFINED BY).
/// Two of them are equal exactly if their encodings are. It prints as its value.
///
/// On reading, `InvalidData` if the element isn't an encoding of a `T`; the element has then been consumed completely.
#[derive(Drop)]
pub struct Encoded<T: Deserialize> {
    encoding: Asn1RawDer,
    value: T,
    ghost is: { ∥ IsEncodingOf T.meaning T.shape encoding.0.items value ∥₁ },
}

impl<T: Deserialize> Encoded<T> {
    /// Returns the value whose encoding this is. `InvalidData` if it isn't the encoding of a `T`, and `OutOfMemory` if
    /// an allocation fails.
    pub fn from_encoding(encoding: Asn1RawDer) -> Result<Encoded<T>>
        ensures ok { IfOk result (λ it. it.encoding ≡ encoding) }
        ensures err { IfErr result (IsNoValue ⟦<Asn1RawDer as Serialize>⟧.meaning
            ⟦<Encoded<T> as TryVia>⟧.parts encoding) }
    {
        match from_der(*encoding.0.allocator(), &encoding.0) {
            Ok(value) => Ok(Encoded { encoding, value }),
            Err(refusal) if refusal.error == Asn1DerError::OutOfMemory => {
                Err(Asn1DerError::OutOfMemory)
            }
            Err(_) => Err(Asn1DerError::InvalidData),
        }
    }

    /// Returns the encoding.
    pub fn encoding(&self) -> &Asn1RawDer
        ensures { result.now ≡ self.now.encoding }
    {
        &self.encoding
    }

    /// Returns the value.
    pub fn value(&self) -> &T
        ensures { result.now ≡ self.now.value }
    {
        &self.value
    }

    /// Two are equal exactly if their encodings are.
    pub fn equality()
        ensures { IsThatOf ⟦<Encoded<T> as PartialEq>⟧.eq (λ it. it.encoding)
            ⟦<Asn1RawDer as PartialEq>⟧.eq }
    {}
}

impl<T: Deserialize> PartialEq for Encoded<T> {
    ghost eq = { on (λ it. it.encoding) ⟦<Asn1RawDer as PartialEq>⟧.eq };

    ghost laws = { Prim.search (comparing, rules) };

    fn eq(&self, other: &Encoded<T>) -> bool {
        self.encoding == other.encoding
    }
}

impl<T: Deserialize> Eq for Encoded<T> {
    ghost laws = { Prim.search (comparing, rules) };
}

/// They are ordered as their encodings.
impl<T: Deserialize> Ord for Encoded<T> {
    ghost cmp = { on (λ it. it.encoding.0.items) (slice_cmp nat_cmp) };

    ghost total = { Prim.search (comparing, rules) };

    ghost matches_partial_cmp = { λ x y. refl };

    ghost matches_eq = { Prim.search (comparing, rules) };

    fn cmp(&self, other: &Encoded<T>) -> Ordering {
        self.encoding.0.cmp(&other.encoding.0)
    }
}

impl<T: Deserialize> PartialOrd for Encoded<T> {
    ghost partial_cmp = { as_partial_cmp (on (λ it. it.encoding.0.items) (slice_cmp nat_cmp)) };

    ghost laws = { partial_order_from_own_ties (Prim.search (comparing, rules)) (Prim.search (comparing, rules)) };

    fn partial_cmp(&self, other: &Encoded<T>) -> Option<Ordering> {
        Some(self.cmp(other))
    }
}

/// The value of a copy is read from a copy of the encoding.
impl<T: Deserialize> Clone for Encoded<T> {
    ghost is_clone = { λ x y. y.encoding.0.items ≡ x.encoding.0.items };

    fn clone(&self) -> std::result::Result<Encoded<T>, AllocError> {
        let Ok(encoding) = self.encoding.clone() else {
            return Err(AllocError);
        };
        match Encoded::from_encoding(encoding) {
            Ok(copy) => Ok(copy),
            Err(_) => Err(AllocError),
        }
    }
}

impl<T: Deserialize + fmt::Debug> fmt::Debug for Encoded<T> {
    ghost debug_output = { λ it. T.debug_output it.value };

    fn fmt<W: fmt::Write>(&self, f: &mut fmt::Formatter<W>) -> fmt::Result {
        self.value.fmt(f)
    }
}

impl<T: Deserialize> Serialize for Encoded<T> {
    ghost meaning = { λ it. Tree.raw it.encoding.0.items };

    fn serialize<W: WriteExt>(&self, serializer: &mut Serializer<W>) -> Result<usize> {
        self.encoding.serialize(serializer)
    }
}

impl<T: Deserialize> TryVia for Encoded<T> {
    type As = Asn1RawDer;

    ghost parts = { λ it. it.encoding };

    fn try_from_parts(encoding: Asn1RawDer) -> Result<Encoded<T>> {
        Encoded::from_encoding(encoding)
    }
}

impl<T: Deserialize> Deserialize for Encoded<T> {
    ghost shape = { Shape.raw };

    ghost facts = { ruled (tested_rule ⟦<Asn1RawDer as Serialize>⟧.meaning Shape.raw ⟦<Encoded<T> as TryVia>⟧.parts raw_rule)
        (raw_facts (λ it. it.encoding.0.items)) };

    ghost proved = { Prim.assumption };

    fn deserialize<R: ReadExt>(deserializer: &mut Deserializer<R>) -> Result<Encoded<T>> {
        try_deserialize_as(deserializer)
    }
}

impl<T: Deserialize> Begins for Encoded<T> {
    fn begins_with(tag: Tag) -> bool {
        <Asn1RawDer as Begins>::begins_with(tag)
    }
}

impl<T: Notated> Notated for Encoded<T> {
    ghost notation = { Notation.encoded T.notation };

    ghost denoted = { refl };
}

impl<T: Exact> Exact for Encoded<T> {
    ghost values = { encoded_values T.values T.notation T.meaning T.facts T.eq (λ it. it.value) (λ it. it.encoding.0.items)
        (λ it. it.is) (λ s x h e. (record { encoding = record { 0 = vec_of s h }; value = x; is = ∣ e ∣₁ }, refl)) };

    ghost exact = { Prim.assumption };
}
