//! The kinds of plain values that are read from the first bytes of their contents.
ghost use Rattle.std.specs.Prelude.{◌≡◌, ℕ, None, Some, IfOk, OnOk, IfErr};
ghost use Rattle.picky_der_core.specs.Primitive.{Primitive, PrimitiveShape, primitive_content, shape_tag};
ghost use Rattle.picky_der_core.specs.Refusal.{Judge};
ghost use Rattle.picky_der_de.specs.Steps.{IsOfContent};
ghost use Rattle.picky_der_de.specs.PlainKinds.{IsShortKind};

use picky_der_core::Result;
use picky_der_core::asn1::Tag;

// A kind of plain values, which are read as values of `V`: their tag, and the test of their contents.
pub(crate) trait PlainKind<V> {
    // What contracts see of a value, as the number of a `UInt`.
    ghost Value: { Type 0 };

    ghost view: { V → Value };

    // What it means, and of which kind it is.
    ghost meaning: { Value → Primitive };

    ghost shape: { PrimitiveShape };

    // The error for bytes that are the content of no value.
    ghost judge: { Judge };

    // The tag of each.
    ghost TAG: { ℕ };

    const TAG: Tag;

    // The value with this content.
    fn of_content(content: &[u8]) -> Result<V>
        ensures ok { IfOk result (λ value. content.now ≡ primitive_content (meaning (view value))) }
        ensures right { OnOk result (judge content.now ≡ None) }
        ensures fault { IfErr result (λ e. judge content.now ≡ Some e) }
        ensures no_device { IfErr result IsOfContent };

    ghost tagged: { TAG ≡ shape_tag shape };

    // As many bytes as are kept of a content determine its value, or its error.
    ghost kind: { IsShortKind meaning shape judge };
}
