//! SETs of different members.
ghost use Rattle.std.proofs.Common.{rules};
ghost use Rattle.std.specs.Prelude.{◌≡◌, true};
ghost use Rattle.picky_der_core.specs.Equality.{IsThatOf};
ghost use Rattle.picky_der_core.specs.Tree.{Tree};
ghost use Rattle.picky_der_core.specs.Shape.{Shape};
ghost use Rattle.picky_der_core.specs.declared.asn1.wrapper.Wrapper.TheVariants as wrapper;
ghost use Rattle.picky_der_de.specs.ContainerFacts.{wrapped_facts};
ghost use Rattle.der_types.specs.TagOrder.{is_in_tag_order};

use picky_der_core::Result;
use picky_der_core::asn1::Tag;
use picky_der_core::misc::{ReadExt, WriteExt};
use picky_der_de::{Begins, Deserialize, Deserializer};
use picky_der_ser::{List, Serialize, Serializer};

/// A SEQUENCE whose members have tags in ascending order (X.680, 8.6). The order is universal, application,
/// context-specific, private, and by number within each class.
///
/// The order is computed when the program is checked: `ghost ordered = { refl };` is the whole implementation.
pub trait TagOrdered: List + Deserialize {
    // The members of its shape are in that order.
    ghost ordered: { is_in_tag_order Self.shape ≡ true };
}

/// A SET of different members (X.690, 8.11) under the tag `TAG` instead of its own tag 31. Its members are the members
/// of the struct `T`, which are in the order of their tags (10.3).
///
/// `TAG` is a whole identifier byte, with the same rules and errors as in `ImplicitList`. If the members of an input
/// are in another order, the first one out of order is refused by its tag.
#[derive(Debug, Clone, Drop, PartialEq, Eq, PartialOrd, Ord, Hash)]
pub struct ImplicitSet<T, const TAG: u8>(pub T);

/// A SET of different members under its own tag 31.
pub type Asn1Set<T> = ImplicitSet<T, 0x31>;

impl<T: PartialEq, const TAG: u8> ImplicitSet<T, TAG> {
    /// Two are equal exactly if their members are.
    pub fn equality()
        ensures { IsThatOf ⟦<ImplicitSet<T, TAG> as PartialEq>⟧.eq (λ set. set.0) T.eq }
    {}
}

impl<T, const TAG: u8> From<T> for ImplicitSet<T, TAG> {
    ghost from_gives = { λ value set. set.0 ≡ value };

    fn from(value: T) -> ImplicitSet<T, TAG> {
        ImplicitSet(value)
    }
}

impl<T: TagOrdered, const TAG: u8> Serialize for ImplicitSet<T, TAG> {
    ghost meaning = { λ set. Tree.wrapped (wrapper.ImplicitList TAG) (T.meaning set.0) };

    fn serialize<W: WriteExt>(&self, serializer: &mut Serializer<W>) -> Result<usize> {
        serializer.serialize_implicit_list(Tag::from(TAG), &self.0)
    }
}

impl<T: TagOrdered, const TAG: u8> Deserialize for ImplicitSet<T, TAG> {
    ghost shape = { Shape.wrapped (wrapper.ImplicitList TAG) T.shape };

    ghost facts = { wrapped_facts T.facts T.meaning T.eq (wrapper.ImplicitList TAG) (λ set. set.0) };

    ghost proved = { Prim.assumption };

    fn deserialize<R: ReadExt>(deserializer: &mut Deserializer<R>) -> Result<ImplicitSet<T, TAG>> {
        let members = deserializer.deserialize_implicit_list(Tag::from(TAG))?;
        Ok(ImplicitSet(members))
    }
}

impl<T: TagOrdered, const TAG: u8> Begins for ImplicitSet<T, TAG> {
    fn begins_with(tag: Tag) -> bool {
        let number = Tag::from(TAG).number();
        number <= Tag::MAX_NUMBER && tag.inner() == TAG
    }
}
