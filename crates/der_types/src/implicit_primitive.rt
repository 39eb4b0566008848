//! Primitive values under another tag instead of their own (X.690, 8.14).
ghost use Rattle.picky_der_core.specs.Equality.{IsThatOf};
ghost use Rattle.picky_der_de.specs.Reading.{Reads, Refuses};
ghost use Rattle.std.specs.Prelude.{◌≡◌, IfOk, IfErr};
ghost use Rattle.der_types.specs.ContentTests.{ReadsContent, RefusesContent, content_rule};
ghost use Rattle.picky_der_de.specs.RefusesBy.{RefusesBy};
ghost use Rattle.der_types.specs.PrimitiveForm.{primitive_form};
ghost use Rattle.der_types.specs.ContentsFacts.{contents_of, contents_shape, content_of_facts};

use crate::Contents;
use crate::contents::deserialize_contents_under;
use picky_der_core::Result;
use picky_der_core::asn1::Tag;
use picky_der_core::misc::{ReadExt, WriteExt};
use picky_der_de::{Begins, Deserialize, Deserializer};
use picky_der_ser::{Serialize, Serializer};

/// A primitive value under the tag `TAG` instead of its own: an implicit tag (X.690, 8.14). `40+n` is `[APPLICATION n]
/// IMPLICIT`, `80+n` is `[n] IMPLICIT`, and `C0+n` is `[PRIVATE n] IMPLICIT`.
///
/// `TAG` is a whole identifier byte. It has to be primitive (bit 6 is clear), with a number of at most 30. Otherwise
/// writing and reading fail with `UnsupportedValue`. `ImplicitList` does the same for lists.
#[derive(Debug, Clone, Drop, PartialEq, Eq, PartialOrd, Ord, Hash)]
pub struct ImplicitPrimitive<T, const TAG: u8>(pub T);

// This identifier byte. A constructed one becomes the identifier byte of the long form, which isn't supported.
fn primitive_form(tag: u8) -> Tag
    ensures { result ≡ primitive_form tag }
{
    let tag = Tag::from(tag);
    if tag.is_constructed() {
        Tag::from(0x1F)
    } else {
        tag
    }
}

impl<T: PartialEq, const TAG: u8> ImplicitPrimitive<T, TAG> {
    /// Two are equal exactly if their values are.
    pub fn equality()
        ensures { IsThatOf ⟦<ImplicitPrimitive<T, TAG> as PartialEq>⟧.eq (λ tagged. tagged.0) T.eq }
    {}
}

impl<T, const TAG: u8> From<T> for ImplicitPrimitive<T, TAG> {
    ghost from_gives = { λ value tagged. tagged.0 ≡ value };

    fn from(value: T) -> ImplicitPrimitive<T, TAG> {
        ImplicitPrimitive(value)
    }
}

impl<T: Contents, const TAG: u8> Serialize for ImplicitPrimitive<T, TAG> {
    ghost meaning = { contents_of (primitive_form TAG) (λ tagged. T.content tagged.0) };

    fn serialize<W: WriteExt>(&self, serializer: &mut Serializer<W>) -> Result<usize> {
        self.0.serialize_under(primitive_form(TAG), serializer)
    }
}

impl<T: Contents, const TAG: u8> Deserialize for ImplicitPrimitive<T, TAG> {
    ghost shape = { contents_shape (primitive_form TAG) };

    ghost facts = { content_of_facts (primitive_form TAG) T.content T.is_content T.equal T.same T.eq (λ tagged. tagged.0) };

    ghost proved = { Prim.assumption };

    fn deserialize<R: ReadExt>(
        deserializer: &mut Deserializer<R>,
    ) -> Result<ImplicitPrimitive<T, TAG>>
        ensures ok { IfOk result (λ it. Reads (contents_shape (primitive_form TAG)) deserializer.old
            deserializer.new (contents_of (primitive_form TAG) T.content it.0)) }
        ensures err { IfErr result (Refuses ⟦<ImplicitPrimitive<T, TAG> as Serialize>⟧.meaning
            (contents_shape (primitive_form TAG)) deserializer.old deserializer.new) }
        ensures read { IfOk result (λ it. ReadsContent (primitive_form TAG) T.is_content deserializer.old
            deserializer.new (T.content it.0)) }
        ensures refused { IfErr result (RefusesContent (λ (it : ImplicitPrimitive T TAG). T.content it.0) (primitive_form TAG)
            T.is_content
            deserializer.old deserializer.new) }
        ensures refused_by { IfErr result (RefusesBy (content_rule (primitive_form TAG) T.is_content)
            deserializer.old deserializer.new) }
    {
        let value = deserialize_contents_under(primitive_form(TAG), deserializer)?;
        Ok(ImplicitPrimitive(value))
    }
}

impl<T: Contents, const TAG: u8> Begins for ImplicitPrimitive<T, TAG> {
    fn begins_with(tag: Tag) -> bool {
        let wanted = primitive_form(TAG);
        wanted.number() <= Tag::MAX_NUMBER && tag == wanted
    }
}
