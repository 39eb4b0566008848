//! Octet strings, bytes under tags of their own, characters, texts and null, as they are read. Values that may be
//! missing.
ghost use Rattle.std.specs.Prelude.{◌<◌, IfOk, IfErr, encode_utf8, string_bytes, OnOk};
ghost use Rattle.picky_der_core.specs.Primitive.{Primitive, PrimitiveShape};
ghost use Rattle.picky_der_core.specs.Tag.{number_of};
ghost use Rattle.picky_der_core.specs.Tree.{Tree};
ghost use Rattle.picky_der_core.specs.Shape.{Shape};
ghost use Rattle.picky_der_de.specs.Reading.{Reads, Refuses, RefusesPrimitive, ReadsPrimitive};
ghost use Rattle.picky_der_de.specs.TagNumbers.{RefusesNumber};
ghost use Rattle.picky_der_de.specs.RefusesBy.{RefusesBy};
ghost use Rattle.picky_der_de.specs.PlainRules.{primitive_rule};
ghost use Rattle.picky_der_de.specs.Facts.{bytes_facts, character_facts, text_facts, null_facts};
ghost use Rattle.std.proofs.Common.{String, Global};
ghost use Rattle.picky_der_de.specs.Steps.{UsesNoMemory};
ghost use Rattle.picky_der_de.specs.ContainerFacts.{option_facts};

use crate::{Deserialize, Deserializer, Null, Utf8String};
use picky_der_core::Result;
use picky_der_core::asn1::{ByteBuf, Tag, TaggedBytes};
use picky_der_core::misc::ReadExt;
use picky_der_ser::Serialize;

impl Deserialize for ByteBuf {
    ghost shape = { Shape.primitive (PrimitiveShape.bytes 0x04) };

    ghost facts = { bytes_facts 0x04 (λ it. it.0.items) };

    ghost proved = { Prim.assumption };

    #[inline(always)]
    fn deserialize<R: ReadExt>(de: &mut Deserializer<R>) -> Result<ByteBuf>
        ensures read { IfOk result (λ value. ReadsPrimitive (PrimitiveShape.bytes 0x04)
            de.old de.new (Primitive.bytes 0x04 value.0.items)) }
        ensures err { IfErr result (Refuses ⟦<ByteBuf as Serialize>⟧.meaning (Shape.primitive (PrimitiveShape.bytes 0x04))
            de.old de.new) }
        ensures refused { IfErr result (RefusesPrimitive (Primitive.bytes 0x04) (PrimitiveShape.bytes 0x04)
            de.old de.new) }
    {
        Ok(ByteBuf(de.deserialize_tagged_bytes(Tag::OCTET_STRING)?))
    }
}

impl<const TAG: u8> Deserialize for TaggedBytes<TAG> {
    ghost shape = { Shape.primitive (PrimitiveShape.bytes TAG) };

    ghost facts = { bytes_facts TAG (λ it. it.0.items) };

    ghost proved = { Prim.assumption };

    #[inline(always)]
    fn deserialize<R: ReadExt>(de: &mut Deserializer<R>) -> Result<TaggedBytes<TAG>>
        ensures ok { IfOk result (λ value. Reads (Shape.primitive (PrimitiveShape.bytes TAG))
            de.old de.new (Tree.primitive (Primitive.bytes TAG value.0.items))) }
        ensures err { IfErr result (Refuses ⟦<TaggedBytes<TAG> as Serialize>⟧.meaning
            (Shape.primitive (PrimitiveShape.bytes TAG)) de.old de.new) }
        ensures refused { IfErr result (RefusesPrimitive (Primitive.bytes TAG) (PrimitiveShape.bytes TAG)
            de.old de.new) }
        ensures refused_by { IfErr result (RefusesBy (primitive_rule (PrimitiveShape.bytes TAG)) de.old de.new) }
        ensures unsupported { 30 < number_of TAG → RefusesNumber de.old result de.new }
    {
        Ok(TaggedBytes(de.deserialize_tagged_bytes(Tag::from(TAG))?))
    }
}

impl Deserialize for char {
    ghost shape = { Shape.primitive PrimitiveShape.character };

    ghost facts = { character_facts };

    ghost proved = { Prim.assumption };

    fn deserialize<R: ReadExt>(de: &mut Deserializer<R>) -> Result<char>
        ensures read { IfOk result (λ value. ReadsPrimitive PrimitiveShape.character
            de.old de.new (Primitive.text (encode_utf8 value))) }
        ensures refused { IfErr result (RefusesPrimitive (λ c. Primitive.text (encode_utf8 c)) PrimitiveShape.character
            de.old de.new) }
        ensures memory { IfErr result (UsesNoMemory de.old de.new) }
    {
        de.read_plain::<Utf8String, char>()
    }
}

impl Deserialize for String {
    ghost shape = { Shape.primitive PrimitiveShape.text };

    ghost facts = { text_facts string_bytes };

    ghost proved = { Prim.assumption };

    fn deserialize<R: ReadExt>(de: &mut Deserializer<R>) -> Result<String>
        ensures read { IfOk result (λ value. ReadsPrimitive PrimitiveShape.text
            de.old de.new (Primitive.text (string_bytes value))) }
        ensures err { IfErr result (Refuses
            (λ (value : String Global). Tree.primitive (Primitive.text (string_bytes value)))
            (Shape.primitive PrimitiveShape.text) de.old de.new) }
        ensures refused { IfErr result (RefusesPrimitive Primitive.text PrimitiveShape.text
            de.old de.new) }
    {
        de.deserialize_string()
    }
}

impl Deserialize for () {
    ghost shape = { Shape.primitive PrimitiveShape.null };

    ghost facts = { null_facts };

    ghost proved = { Prim.assumption };

    fn deserialize<R: ReadExt>(de: &mut Deserializer<R>) -> Result<()>
        ensures read { OnOk result
            (ReadsPrimitive PrimitiveShape.null de.old de.new Primitive.null) }
        ensures refused { IfErr result (RefusesPrimitive (λ (_ : Unit {0}). Primitive.null) PrimitiveShape.null
            de.old de.new) }
        ensures memory { IfErr result (UsesNoMemory de.old de.new) }
    {
        de.read_plain::<Null, ()>()
    }
}

impl<T: Deserialize> Deserialize for Option<T> {
    ghost shape = { Shape.optional T.shape };

    ghost facts = { option_facts T.facts T.meaning T.eq };

    ghost proved = { Prim.assumption };

    fn deserialize<R: ReadExt>(de: &mut Deserializer<R>) -> Result<Option<T>> {
        de.deserialize_option()
    }
}
