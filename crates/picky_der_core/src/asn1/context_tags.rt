//! Context tags around values (X.690, 8.14).
ghost use Rattle.std.specs.Prelude.{◌≡◌, IfOk, IfErr};

use crate::{Asn1DerError, Result};
use std::hash::Hash;

/// A value under the explicit context tag with the number `N`, at most 30: `A0+N`, around its encoding.
#[derive(Debug, Clone, Drop, PartialEq, Eq, PartialOrd, Ord, Hash)]
pub struct ExplicitContextTag<T, const N: u8>(pub T);

impl<T: Clone, const N: u8> ExplicitContextTag<T, N> {
    /// A copy. `OutOfMemory` if an allocation fails.
    pub fn clone(&self) -> Result<ExplicitContextTag<T, N>>
        ensures same { IfOk result (λ copy. T.is_clone self.now.0 copy.0) }
        ensures memory { IfErr result (λ e. e ≡ Asn1DerError.OutOfMemory) }
    {
        Ok(ExplicitContextTag(self.0.clone()?))
    }
}

impl<T, const N: u8> From<T> for ExplicitContextTag<T, N> {
    ghost from_gives = { λ value wrapped. wrapped.0 ≡ value };

    fn from(value: T) -> ExplicitContextTag<T, N> {
        ExplicitContextTag(value)
    }
}

/// A value under the implicit context tag with the number `N`, at most 30. The tag `80+N` is in place of the header of
/// a plain value or of a list, and around the encoding of any other.
///
/// X.690 (8.14) has `A0+N` over a list. This type follows the Rust crate there; `ImplicitList` writes and reads `A0+N`.
#[derive(Debug, Clone, Drop, PartialEq, Eq, PartialOrd, Ord, Hash)]
pub struct ImplicitContextTag<T, const N: u8>(pub T);

impl<T: Clone, const N: u8> ImplicitContextTag<T, N> {
    /// A copy. `OutOfMemory` if an allocation fails.
    pub fn clone(&self) -> Result<ImplicitContextTag<T, N>>
        ensures same { IfOk result (λ copy. T.is_clone self.now.0 copy.0) }
        ensures memory { IfErr result (λ e. e ≡ Asn1DerError.OutOfMemory) }
    {
        Ok(ImplicitContextTag(self.0.clone()?))
    }
}

impl<T, const N: u8> From<T> for ImplicitContextTag<T, N> {
    ghost from_gives = { λ value wrapped. wrapped.0 ≡ value };

    fn from(value: T) -> ImplicitContextTag<T, N> {
        ImplicitContextTag(value)
    }
}

/// The explicit context tag 0.
pub type ExplicitContextTag0<T> = ExplicitContextTag<T, 0>;
/// The explicit context tag 1.
pub type ExplicitContextTag1<T> = ExplicitContextTag<T, 1>;
/// The explicit context tag 2.
pub type ExplicitContextTag2<T> = ExplicitContextTag<T, 2>;
/// The explicit context tag 3.
pub type ExplicitContextTag3<T> = ExplicitContextTag<T, 3>;
/// The explicit context tag 4.
pub type ExplicitContextTag4<T> = ExplicitContextTag<T, 4>;
/// The explicit context tag 5.
pub type ExplicitContextTag5<T> = ExplicitContextTag<T, 5>;
/// The explicit context tag 6.
pub type ExplicitContextTag6<T> = ExplicitContextTag<T, 6>;
/// The explicit context tag 7.
pub type ExplicitContextTag7<T> = ExplicitContextTag<T, 7>;
/// The explicit context tag 8.
pub type ExplicitContextTag8<T> = ExplicitContextTag<T, 8>;
/// The explicit context tag 9.
pub type ExplicitContextTag9<T> = ExplicitContextTag<T, 9>;
/// The explicit context tag 10.
pub type ExplicitContextTag10<T> = ExplicitContextTag<T, 10>;
/// The explicit context tag 11.
pub type ExplicitContextTag11<T> = ExplicitContextTag<T, 11>;
/// The explicit context tag 12.
pub type ExplicitContextTag12<T> = ExplicitContextTag<T, 12>;
/// The explicit context tag 13.
pub type ExplicitContextTag13<T> = ExplicitContextTag<T, 13>;
/// The explicit context tag 14.
pub type ExplicitContextTag14<T> = ExplicitContextTag<T, 14>;
/// The explicit context tag 15.
pub type ExplicitContextTag15<T> = ExplicitContextTag<T, 15>;

/// The implicit context tag 0.
pub type ImplicitContextTag0<T> = ImplicitContextTag<T, 0>;
/// The implicit context tag 1.
pub type ImplicitContextTag1<T> = ImplicitContextTag<T, 1>;
/// The implicit context tag 2.
pub type ImplicitContextTag2<T> = ImplicitContextTag<T, 2>;
/// The implicit context tag 3.
pub type ImplicitContextTag3<T> = ImplicitContextTag<T, 3>;
/// The implicit context tag 4.
pub type ImplicitContextTag4<T> = ImplicitContextTag<T, 4>;
/// The implicit context tag 5.
pub type ImplicitContextTag5<T> = ImplicitContextTag<T, 5>;
/// The implicit context tag 6.
pub type ImplicitContextTag6<T> = ImplicitContextTag<T, 6>;
/// The implicit context tag 7.
pub type ImplicitContextTag7<T> = ImplicitContextTag<T, 7>;
/// The implicit context tag 8.
pub type ImplicitContextTag8<T> = ImplicitContextTag<T, 8>;
/// The implicit context tag 9.
pub type ImplicitContextTag9<T> = ImplicitContextTag<T, 9>;
/// The implicit context tag 10.
pub type ImplicitContextTag10<T> = ImplicitContextTag<T, 10>;
/// The implicit context tag 11.
pub type ImplicitContextTag11<T> = ImplicitContextTag<T, 11>;
/// The implicit context tag 12.
pub type ImplicitContextTag12<T> = ImplicitContextTag<T, 12>;
/// The implicit context tag 13.
pub type ImplicitContextTag13<T> = ImplicitContextTag<T, 13>;
/// The implicit context tag 14.
pub type ImplicitContextTag14<T> = ImplicitContextTag<T, 14>;
/// The implicit context tag 15.
pub type ImplicitContextTag15<T> = ImplicitContextTag<T, 15>;
