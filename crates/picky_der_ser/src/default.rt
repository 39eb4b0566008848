//! Members of a sequence that are left out if they have the default value.
ghost use Rattle.std.proofs.Common.{rules};
ghost use Rattle.std.specs.Prelude.{◌≡◌, Bool, true, IsTrue, not};
ghost use mathlib.Core.Bool.{beq};
ghost use Rattle.picky_der_core.specs.Equality.{IsThatOf};
ghost use Rattle.picky_der_core.specs.declared.asn1.wrapper.Wrapper.TheVariants as wrapper;
ghost use Rattle.picky_der_ser.specs.Meaning.{maybe_more, unless_default};
ghost use Rattle.picky_der_ser.specs.Defaults.{IsByTree, IsOne, one_false, one_true, wrapped_by_tree};

use crate::{List, Sequence, Serialize, SerializeMember};
use picky_der_core::Result;
use picky_der_core::asn1::{ExplicitContextTag, ImplicitContextTag, ImplicitList};
use picky_der_core::misc::WriteExt;
use std::marker::PhantomData;

/// The default of a member (ASN.1's DEFAULT): the value that it has if it is absent.
pub trait DefaultOf<T: Serialize + PartialEq> {
    // Whether a value is the default.
    ghost left_out: { T → Bool };

    // A `==` of the values: that of the type, where it can be named.
    ghost equal: { T → T → Bool };

    // By this `==` there is one default.
    ghost one: { IsOne equal left_out };

    /// Whether a value is the default.
    fn is_default(value: &T) -> bool
        ensures { result ≡ left_out value.now };

    /// The default.
    fn default() -> T
        ensures { IsTrue (left_out result) };

    // A value is the default exactly if it means the tree that the default means.
    ghost by_tree: { IsByTree T.meaning left_out };

    // Values that are equal by it are equal.
    ghost equal_so: { (x y : T) → equal x y ≡ true → T.eq x y ≡ true };
}

/// A member with the default `D`. A value that is the default isn't written (X.690, 11.5), and the other members are
/// written as without it.
#[derive(Drop)]
#[derive_where(Debug, PartialEq, Eq; T)]
pub struct Defaulted<T, D> {
    /// The value, which may be the default.
    pub value: T,
    /// The type that names the default.
    #[derive_where(skip)]
    pub default: PhantomData<D>,
}

impl<T, D> Defaulted<T, D> {
    /// The member with this value.
    pub fn new(value: T) -> Defaulted<T, D>
        ensures { result.value ≡ value }
    {
        Defaulted {
            value,
            default: PhantomData,
        }
    }
}

impl<T: PartialEq, D> Defaulted<T, D> {
    /// Two are equal exactly if their values are.
    pub fn equality()
        ensures { IsThatOf ⟦<Defaulted<T, D> as PartialEq>⟧.eq (λ member. member.value) T.eq }
    {}
}

/// A member with the default `D`, by reference, for the field of a struct.
#[derive(Drop)]
pub struct DefaultedRef<'a, T, D> {
    /// The value, which isn't written if it is the default.
    pub value: &'a T,
    default: PhantomData<D>,
}

impl<'a, T, D> DefaultedRef<'a, T, D> {
    /// The member with this value.
    pub fn new(value: &'a T) -> DefaultedRef<'a, T, D>
        ensures { result.value ≡ value.entry }
    {
        DefaultedRef {
            value,
            default: PhantomData,
        }
    }
}

impl<T: Serialize + PartialEq, D: DefaultOf<T>> SerializeMember for Defaulted<T, D> {
    ghost prepend = { λ member. maybe_more T.meaning (unless_default D.left_out member.value) };

    fn serialize_member<W: WriteExt>(&self, sequence: &mut Sequence<'_, W>) -> Result<()> {
        DefaultedRef::<T, D>::new(&self.value).serialize_member(sequence)
    }
}

impl<T: Serialize + PartialEq, D: DefaultOf<T>> SerializeMember for DefaultedRef<'_, T, D> {
    ghost prepend = { λ member. maybe_more T.meaning (unless_default D.left_out member.value.now) };

    fn serialize_member<W: WriteExt>(&self, sequence: &mut Sequence<'_, W>) -> Result<()> {
        if D::is_default(self.value) {
            return Ok(());
        }
        sequence.serialize_element(self.value)
    }
}

/// The default `FALSE` of a BOOLEAN.
pub struct False;

/// The default `TRUE` of a BOOLEAN.
pub struct True;

/// The default `N` of an INTEGER, at most 255.
pub struct Number<const N: u8>;

/// The default `N` of an INTEGER in a signed type, from -128 to 127.
pub struct SignedNumber<const N: i8>;

impl DefaultOf<bool> for False {
    ghost left_out = { not };

    ghost equal = { beq };

    fn is_default(value: &bool) -> bool {
        !*value
    }

    fn default() -> bool {
        false
    }

    ghost by_tree = { Prim.search rules };

    ghost one = { one_false };

    ghost equal_so = { λ x y h. h };
}

impl DefaultOf<bool> for True {
    ghost left_out = { λ value. value };

    ghost equal = { beq };

    fn is_default(value: &bool) -> bool {
        *value
    }

    fn default() -> bool {
        true
    }

    ghost by_tree = { Prim.search rules };

    ghost one = { one_true };

    ghost equal_so = { λ x y h. h };
}

/// A default of a type is also a default of it under an explicit tag.
impl<T: Serialize + PartialEq, D: DefaultOf<T>, const N: u8> DefaultOf<ExplicitContextTag<T, N>>
    for D {
    ghost left_out = { λ tagged. D.left_out tagged.0 };

    ghost equal = { λ x y. D.equal x.0 y.0 };

    fn is_default(value: &ExplicitContextTag<T, N>) -> bool {
        D::is_default(&value.0)
    }

    fn default() -> ExplicitContextTag<T, N> {
        ExplicitContextTag(D::default())
    }

    ghost by_tree = { λ x y d. wrapped_by_tree (wrapper.Explicit N) T.meaning D.left_out D.by_tree x.0 y.0 d };

    ghost one = { λ x y. D.one x.0 y.0 };

    ghost equal_so = { λ x y h. D.equal_so x.0 y.0 h };
}

/// A default of a type is also a default of it under an implicit tag.
impl<T: Serialize + PartialEq, D: DefaultOf<T>, const N: u8> DefaultOf<ImplicitContextTag<T, N>>
    for D {
    ghost left_out = { λ tagged. D.left_out tagged.0 };

    ghost equal = { λ x y. D.equal x.0 y.0 };

    fn is_default(value: &ImplicitContextTag<T, N>) -> bool {
        D::is_default(&value.0)
    }

    fn default() -> ImplicitContextTag<T, N> {
        ImplicitContextTag(D::default())
    }

    ghost by_tree = { λ x y d. wrapped_by_tree (wrapper.Implicit N) T.meaning D.left_out D.by_tree x.0 y.0 d };

    ghost one = { λ x y. D.one x.0 y.0 };

    ghost equal_so = { λ x y h. D.equal_so x.0 y.0 h };
}

/// A default of a list is also a default of it under a tag in place of its own.
impl<T: List + PartialEq, D: DefaultOf<T>, const TAG: u8> DefaultOf<ImplicitList<T, TAG>> for D {
    ghost left_out = { λ tagged. D.left_out tagged.0 };

    ghost equal = { λ x y. D.equal x.0 y.0 };

    fn is_default(value: &ImplicitList<T, TAG>) -> bool {
        D::is_default(&value.0)
    }

    fn default() -> ImplicitList<T, TAG> {
        ImplicitList(D::default())
    }

    ghost by_tree = { λ x y d. wrapped_by_tree (wrapper.ImplicitList TAG) T.meaning D.left_out D.by_tree x.0 y.0 d };

    ghost one = { λ x y. D.one x.0 y.0 };

    ghost equal_so = { λ x y h. D.equal_so x.0 y.0 h };
}
