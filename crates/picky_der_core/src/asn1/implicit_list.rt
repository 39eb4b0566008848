//! Implicit tags over lists, in the constructed form (X.690, 8.14).
ghost use Rattle.std.specs.Prelude.{◌≡◌, IfOk, IfErr};

use crate::{Asn1DerError, Result};
use std::hash::Hash;

/// A SEQUENCE or SET, of fixed members or of many, under the tag `TAG` in place of its own tag 30 or 31. This is an
/// implicit tag by X.690, 8.14: `A0+n` is the context tag n, and `60+n` the application tag n.
///
/// `TAG` is a whole identifier byte. It has to be constructed (bit 6 is set) with a number of at most 30. Else writing
/// and reading return `UnsupportedValue`.
///
/// `ImplicitContextTag` writes `80+n` over everything, also over a list, as the Rust crate does. The structures of
/// standards need this type instead.
#[derive(Debug, Clone, Drop, PartialEq, Eq, PartialOrd, Ord, Hash)]
pub struct ImplicitList<T, const TAG: u8>(pub T);

impl<T: Clone, const TAG: u8> ImplicitList<T, TAG> {
    /// A copy of the value in it. `OutOfMemory` if an allocation fails.
    pub fn clone(&self) -> Result<ImplicitList<T, TAG>>
        ensures same { IfOk result (λ copy. T.is_clone self.now.0 copy.0) }
        ensures memory { IfErr result (λ e. e ≡ Asn1DerError.OutOfMemory) }
    {
        Ok(ImplicitList(self.0.clone()?))
    }
}

impl<T, const TAG: u8> From<T> for ImplicitList<T, TAG> {
    ghost from_gives = { λ value wrapped. wrapped.0 ≡ value };

    fn from(value: T) -> ImplicitList<T, TAG> {
        ImplicitList(value)
    }
}

/// A list under the implicit context tag 0, `A0`.
pub type ImplicitList0<T> = ImplicitList<T, 0xA0>;
/// A list under the implicit context tag 1, `A1`.
pub type ImplicitList1<T> = ImplicitList<T, 0xA1>;
/// A list under the implicit context tag 2, `A2`.
pub type ImplicitList2<T> = ImplicitList<T, 0xA2>;
/// A list under the implicit context tag 3, `A3`.
pub type ImplicitList3<T> = ImplicitList<T, 0xA3>;
/// A list under the implicit context tag 4, `A4`.
pub type ImplicitList4<T> = ImplicitList<T, 0xA4>;
/// A list under the implicit context tag 5, `A5`.
pub type ImplicitList5<T> = ImplicitList<T, 0xA5>;
/// A list under the implicit context tag 6, `A6`.
pub type ImplicitList6<T> = ImplicitList<T, 0xA6>;
/// A list under the implicit context tag 7, `A7`.
pub type ImplicitList7<T> = ImplicitList<T, 0xA7>;

/// A SET OF whose members are read in any order and written in that order. It is for data that isn't DER, since X.690
/// (11.6) requires ascending order. `Asn1SetOf` writes ascending order, and refuses any other.
pub type SetOfAsGiven<T> = ImplicitList<Vec<T>, 0x31>;
