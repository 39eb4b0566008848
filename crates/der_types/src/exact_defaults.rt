//! Exact types for the defaults of members.
ghost use Rattle.std.specs.Prelude.{◌≡◌, Bool, true, false, refl};
ghost use Rattle.picky_der_core.specs.declared.asn1.wrapper.Wrapper.TheVariants as wrapper;
ghost use Rattle.der_types.specs.ExactDefaults.{false_default, true_default, wrapped_default, wrapped_proved};
ghost use Rattle.der_types.specs.ExactMembers.{Default, ProvedDefault, defaulted_values};

use crate::{Exact, ExactMember, NotatedDefault};
use picky_der_core::asn1::{ExplicitContextTag, ImplicitContextTag, ImplicitList};
use picky_der_de::Begins;
use picky_der_ser::{Defaulted, False, List, Serialize, True};

/// A default that is the value of its member's type with the encoding that its notation names.
pub trait ExactDefault<T: Serialize + PartialEq>: NotatedDefault<T> {
    // What the default states about itself.
    ghost default: { Default T };

    // The statement is about the type's own default.
    ghost exact_default: { ProvedDefault default T.meaning Self.left_out Self.value };
}

impl<T: Exact + Begins, D: ExactDefault<T>> ExactMember for Defaulted<T, D> {
    ghost member_values = { defaulted_values T.values T.notation T.meaning D.default D.left_out D.value (λ it. it.value)
        (λ x. (record { value = x; default = record {} }, refl)) };

    ghost exact_member = { Prim.assumption };
}

impl ExactDefault<bool> for False {
    ghost default = { false_default };

    ghost exact_default = { Prim.assumption };
}

impl ExactDefault<bool> for True {
    ghost default = { true_default };

    ghost exact_default = { Prim.assumption };
}

impl<T: Serialize + PartialEq, D: ExactDefault<T>, const N: u8> ExactDefault<
    ExplicitContextTag<T, N>,
> for D {
    ghost default = { wrapped_default (wrapper.Explicit N) (λ it. it.0) (λ x. (record { 0 = x }, refl)) D.default };

    ghost exact_default = { wrapped_proved (wrapper.Explicit N) (λ it. it.0) (λ x. (record { 0 = x }, refl)) D.exact_default };
}

impl<T: Serialize + PartialEq, D: ExactDefault<T>, const N: u8> ExactDefault<
    ImplicitContextTag<T, N>,
> for D {
    ghost default = { wrapped_default (wrapper.Implicit N) (λ it. it.0) (λ x. (record { 0 = x }, refl)) D.default };

    ghost exact_default = { wrapped_proved (wrapper.Implicit N) (λ it. it.0) (λ x. (record { 0 = x }, refl)) D.exact_default };
}

impl<T: List + PartialEq, D: ExactDefault<T>, const TAG: u8> ExactDefault<ImplicitList<T, TAG>>
    for D {
    ghost default = { wrapped_default (wrapper.ImplicitList TAG) (λ it. it.0) (λ x. (record { 0 = x }, refl)) D.default };

    ghost exact_default = { wrapped_proved (wrapper.ImplicitList TAG) (λ it. it.0) (λ x. (record { 0 = x }, refl)) D.exact_default };
}
