//! Plain values of one kind, each with one call that writes it.
ghost use Rattle.picky_der_core.specs.Primitive.{Primitive};
ghost use Rattle.picky_der_ser.specs.Calls.{WritesPrimitive};

use crate::Serializer;
use picky_der_core::misc::WriteExt;
use picky_der_core::{Result, UInt};

/// Writes BOOLEANs (X.690, 8.2).
pub struct Boolean;

impl Boolean {
    /// Writes a bool, as `Serializer::serialize_bool` does.
    pub fn serialize<W: WriteExt>(value: bool, ser: &mut Serializer<W>) -> Result<usize>
        ensures { WritesPrimitive W.WriteExt.own (Primitive.boolean value) ser.old result ser.new }
    {
        ser.serialize_bool(value)
    }
}

/// Writes unsigned integers (X.690, 8.3).
pub struct UnsignedInteger;

impl UnsignedInteger {
    /// Writes a number, as `Serializer::serialize_u128` does.
    pub fn serialize<T: UInt, W: WriteExt>(value: T, ser: &mut Serializer<W>) -> Result<usize>
        ensures { WritesPrimitive W.WriteExt.own
            (Primitive.unsigned (T.number value)) ser.old result ser.new }
    {
        ser.serialize_u128(value.into_u128())
    }
}

/// Writes NULLs (X.690, 8.8).
pub struct Null;

impl Null {
    /// Writes a null, as `Serializer::serialize_unit` does.
    pub fn serialize<W: WriteExt>(ser: &mut Serializer<W>) -> Result<usize>
        ensures { WritesPrimitive W.WriteExt.own Primitive.null ser.old result ser.new }
    {
        ser.serialize_unit()
    }
}

/// Writes UTF-8 texts (X.690, 8.23).
pub struct Utf8String;

impl Utf8String {
    /// Writes a text, as `Serializer::serialize_str` does.
    pub fn serialize<W: WriteExt>(value: &str, ser: &mut Serializer<W>) -> Result<usize>
        ensures { WritesPrimitive W.WriteExt.own (Primitive.text value.now) ser.old result ser.new }
    {
        ser.serialize_str(value)
    }
}
