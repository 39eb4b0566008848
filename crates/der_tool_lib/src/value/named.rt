//! The types that lines name, for reading.
ghost use Rattle.std.specs.Prelude.{◌≡◌, IfOk, IfErr, string_bytes, refl};
ghost use Rattle.picky_der_core.specs.Shape.{IsOf};
ghost use Rattle.der_tool_lib.specs.Value.{description_of};
ghost use Rattle.der_tool_lib.specs.Reads.{ReadsNamed, RefusesNamed};

use crate::{SubjectPublicKeyInfo, TestStruct};
use picky_asn1_der::asn1::ByteBuf;
use picky_asn1_der::misc::ReadExt;
use picky_asn1_der::{Asn1RawDer, Deserialize, Deserializer, Result};

// A type that lines name. Its description says which error a refused input has.
pub(crate) trait Named: Deserialize {
    ghost use Rattle.der_tool_lib.specs.declared.value.ValueType.{ValueType};

    ghost named: { ValueType };

    // The value as its description has it.
    ghost described_as: { Self → (description_of named).Value };

    fn read<R: ReadExt>(de: &mut Deserializer<R>) -> Result<Self>
        ensures ok { IfOk result (λ value. ReadsNamed named de.old de.new (described_as value)) }
        ensures err { IfErr result (RefusesNamed named de.old de.new) };

    // A value with the shape of the description means the same there.
    ghost same_meaning: { (v : Self)
        → IsOf (description_of named).shape ((description_of named).meaning (described_as v))
        → (description_of named).meaning (described_as v) ≡ Self.meaning v };
}

impl Named for bool {
    ghost use Rattle.der_tool_lib.specs.declared.value.ValueType.TheVariants.{Bool};

    ghost named = { Bool };

    ghost described_as = { λ v. v };

    ghost same_meaning = { λ v of_shape. refl };

    fn read<R: ReadExt>(de: &mut Deserializer<R>) -> Result<bool> {
        de.deserialize_bool()
    }
}

impl Named for () {
    ghost use Rattle.der_tool_lib.specs.declared.value.ValueType.TheVariants.{Null};

    ghost named = { Null };

    ghost described_as = { λ v. v };

    ghost same_meaning = { λ v of_shape. refl };

    fn read<R: ReadExt>(de: &mut Deserializer<R>) -> Result<()> {
        de.deserialize_unit()
    }
}

impl Named for char {
    ghost use Rattle.der_tool_lib.specs.declared.value.ValueType.TheVariants.{Char};

    ghost named = { Char };

    ghost described_as = { λ v. v };

    ghost same_meaning = { λ v of_shape. refl };

    fn read<R: ReadExt>(de: &mut Deserializer<R>) -> Result<char> {
        de.deserialize_char()
    }
}

impl Named for String {
    ghost use Rattle.der_tool_lib.specs.declared.value.ValueType.TheVariants.{Text};

    ghost named = { Text };

    ghost described_as = { λ v. string_bytes v };

    ghost same_meaning = { λ v of_shape. refl };

    fn read<R: ReadExt>(de: &mut Deserializer<R>) -> Result<String> {
        de.deserialize_string()
    }
}

impl Named for ByteBuf {
    ghost use Rattle.der_tool_lib.specs.declared.value.ValueType.TheVariants.{Octets};

    ghost named = { Octets };

    ghost described_as = { λ v. v.0.items };

    ghost same_meaning = { λ v of_shape. refl };

    fn read<R: ReadExt>(de: &mut Deserializer<R>) -> Result<ByteBuf> {
        Ok(ByteBuf(de.deserialize_byte_buf()?))
    }
}

impl Named for Asn1RawDer {
    ghost use Rattle.der_tool_lib.specs.declared.value.ValueType.TheVariants.{Raw};

    ghost named = { Raw };

    ghost described_as = { λ v. v.0.items };

    ghost same_meaning = { λ v of_shape. refl };

    fn read<R: ReadExt>(de: &mut Deserializer<R>) -> Result<Asn1RawDer> {
        Ok(Asn1RawDer(de.deserialize_raw()?))
    }
}

impl Named for TestStruct {
    ghost use Rattle.der_tool_lib.specs.declared.value.ValueType.TheVariants.{Test};

    ghost named = { Test };

    ghost described_as = { λ v. v };

    ghost same_meaning = { λ v of_shape. refl };

    fn read<R: ReadExt>(de: &mut Deserializer<R>) -> Result<TestStruct> {
        TestStruct::deserialize(de)
    }
}

impl Named for SubjectPublicKeyInfo {
    ghost use Rattle.der_tool_lib.specs.declared.value.ValueType.TheVariants.{Spki};

    ghost named = { Spki };

    ghost described_as = { λ v. v };

    ghost same_meaning = { λ v of_shape. refl };

    fn read<R: ReadExt>(de: &mut Deserializer<R>) -> Result<SubjectPublicKeyInfo> {
        SubjectPublicKeyInfo::deserialize(de)
    }
}
