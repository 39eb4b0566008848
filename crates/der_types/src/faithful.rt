//! The types of this crate whose equal values have one encoding, and of which some value is readable.
ghost use Rattle.std.specs.Prelude.{[], true, refl};
ghost use lib.Dec.{eqb};
ghost use lib.Pointwise.{pointwise};
ghost use Rattle.picky_der_core.specs.declared.asn1.wrapper.Wrapper.TheVariants.{ImplicitList};
ghost use Rattle.picky_der_core.specs.Tree.{Tree};
ghost use Rattle.picky_der_de.specs.Faithful.{plain_sameness, wrapped_sameness, bytes_respect, same_list};
ghost use Rattle.der_types.specs.PrimitiveForm.{primitive_form};
ghost use Rattle.der_types.specs.Sameness.{content_sameness, content_under_sameness, alternatives_sameness};
ghost use Rattle.der_types.specs.SampleTrees.{exact_example};
ghost use Rattle.der_types.specs.TimeSameness.{same_generalized};
ghost use Rattle.der_types.specs.TimeValues.{generalized_content};

use crate::{
    CharacterSet, Encoded, Exact, ExactContents, ImplicitPrimitive, ImplicitSet, LaterTime,
    Notated, RestrictedString, TagOrdered,
};
use picky_der_de::{Deserialize, Faithful, Inhabited};
use picky_der_ser::Serialize;

impl<S: CharacterSet> Faithful for RestrictedString<S> {
    ghost sameness = { content_sameness S.TAG (λ it. it.content.items) ⟦<Self as PartialEq>⟧.eq
        (λ x y. same_list x.content.items y.content.items) };

    ghost respects = { Prim.assumption };
}

impl<T: ExactContents + Faithful, const TAG: u8> Faithful for ImplicitPrimitive<T, TAG> {
    ghost sameness = { content_under_sameness T.sameness T.eq T.meaning T.own_contents T.content (primitive_form TAG) (λ it. it.0) };

    ghost respects = { Prim.assumption };
}

impl<T: Faithful + TagOrdered, const TAG: u8> Faithful for ImplicitSet<T, TAG> {
    ghost sameness = { wrapped_sameness T.sameness T.eq T.meaning (ImplicitList TAG) (λ it. it.0) };

    ghost respects = { Prim.assumption };
}

impl<T: Deserialize> Faithful for Encoded<T> {
    ghost sameness = { plain_sameness (λ x y. pointwise eqb x.encoding.0.items y.encoding.0.items)
        (λ it. Tree.raw it.encoding.0.items) (bytes_respect Tree.raw (λ it. it.encoding.0.items)) };

    ghost respects = { Prim.assumption };
}

impl Faithful for LaterTime {
    ghost sameness = { content_sameness 0x18 (λ it. generalized_content it.at []) ⟦<Self as PartialEq>⟧.eq
        (λ x y. same_generalized x.at y.at) };

    ghost respects = { Prim.assumption };
}

impl Inhabited for LaterTime {
    ghost example = { exact_example ⟦<Self as Exact>⟧.values ⟦<Self as Notated>⟧.notation ⟦<Self as Serialize>⟧.meaning refl
        Prim.assumption };
}
