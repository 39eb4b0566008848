//! The values that members have by default.
ghost use Rattle.std.proofs.Common.{ap};
ghost use Rattle.std.specs.Prelude.{◌≡◌, true, false, IsTrue, refl};
ghost use Rattle.picky_der_core.specs.Primitive.{Primitive};
ghost use Rattle.picky_der_core.specs.Tree.{Tree};
ghost use Rattle.picky_der_core.specs.declared.asn1.wrapper.Wrapper.TheVariants as wrapper;
ghost use Rattle.der_types.specs.NotationLaws.{false_value, true_value};

use picky_der_core::asn1::{ExplicitContextTag, ImplicitContextTag, ImplicitList};
use picky_der_ser::{DefaultOf, False, List, Serialize, True};

/// A default value that is given by its encoding.
pub trait NotatedDefault<T: Serialize + PartialEq>: DefaultOf<T> {
    // What the default means.
    ghost value: { Tree };

    // A value that equals the default means the same.
    ghost is_value: { (it : T) → IsTrue (Self.left_out it) → T.meaning it ≡ value };
}

impl NotatedDefault<bool> for False {
    ghost value = { Tree.primitive (Primitive.boolean false) };

    ghost is_value = { false_value };
}

impl NotatedDefault<bool> for True {
    ghost value = { Tree.primitive (Primitive.boolean true) };

    ghost is_value = { true_value };
}

impl<T: Serialize + PartialEq, D: NotatedDefault<T>, const N: u8> NotatedDefault<
    ExplicitContextTag<T, N>,
> for D {
    ghost value = { Tree.wrapped (wrapper.Explicit N) D.value };

    ghost is_value = { λ tagged h. ap (Tree.wrapped (wrapper.Explicit N)) (D.is_value tagged.0 h) };
}

impl<T: Serialize + PartialEq, D: NotatedDefault<T>, const N: u8> NotatedDefault<
    ImplicitContextTag<T, N>,
> for D {
    ghost value = { Tree.wrapped (wrapper.Implicit N) D.value };

    ghost is_value = { λ tagged h. ap (Tree.wrapped (wrapper.Implicit N)) (D.is_value tagged.0 h) };
}

impl<T: List + PartialEq, D: NotatedDefault<T>, const TAG: u8> NotatedDefault<ImplicitList<T, TAG>>
    for D {
    ghost value = { Tree.wrapped (wrapper.ImplicitList TAG) D.value };

    ghost is_value = { λ tagged h. ap (Tree.wrapped (wrapper.ImplicitList TAG)) (D.is_value tagged.0 h) };
}
