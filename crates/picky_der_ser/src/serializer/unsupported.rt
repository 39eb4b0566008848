//! The calls of the Rust crate that only fail with `UnsupportedType`: numbers with a sign, maps, and the variants of
//! enums.
ghost use Rattle.picky_der_ser.specs.Calls.{IsUnsupported};

use super::Serializer;
use crate::Serialize;
use picky_der_core::misc::WriteExt;
use picky_der_core::{Asn1DerError, Result};

impl<W: WriteExt> Serializer<W> {
    // Fails with `UnsupportedType`, unless it has failed before.
    fn refuse_type(&mut self) -> Result<usize>
        ensures { IsUnsupported self.old result self.new }
    {
        match self.earlier() {
            Some(error) => Err(error),
            None => Err(self.fail(Asn1DerError::UnsupportedType)),
        }
    }

    /// Only fails, with `UnsupportedType`: `(-1i8).serialize(..)` writes such a number. As in all calls below, nothing
    /// is written or allocated, and a serializer that has failed returns its earlier error.
    pub fn serialize_i8(&mut self, _value: i8) -> Result<usize>
        ensures { IsUnsupported self.old result self.new }
    {
        self.refuse_type()
    }

    /// Only fails, with `UnsupportedType`: `(-1i16).serialize(..)` writes such a number.
    pub fn serialize_i16(&mut self, _value: i16) -> Result<usize>
        ensures { IsUnsupported self.old result self.new }
    {
        self.refuse_type()
    }

    /// Only fails, with `UnsupportedType`: `(-1i32).serialize(..)` writes such a number.
    pub fn serialize_i32(&mut self, _value: i32) -> Result<usize>
        ensures { IsUnsupported self.old result self.new }
    {
        self.refuse_type()
    }

    /// Only fails, with `UnsupportedType`: `(-1i64).serialize(..)` writes such a number.
    pub fn serialize_i64(&mut self, _value: i64) -> Result<usize>
        ensures { IsUnsupported self.old result self.new }
    {
        self.refuse_type()
    }

    /// Only fails, with `UnsupportedType`: `(-1i128).serialize(..)` writes such a number.
    pub fn serialize_i128(&mut self, _value: i128) -> Result<usize>
        ensures { IsUnsupported self.old result self.new }
    {
        self.refuse_type()
    }

    /// Only fails, with `UnsupportedType`: a list of pairs, such as a `Vec<(K, V)>`, is written by its `serialize`.
    pub fn serialize_map(&mut self, _len: Option<usize>) -> Result<usize>
        ensures { IsUnsupported self.old result self.new }
    {
        self.refuse_type()
    }

    /// Only fails, with `UnsupportedType`: a variant is written by `serialize_choice` of its value, here of `()`.
    pub fn serialize_unit_variant(
        &mut self,
        _name: &'static str,
        _index: u32,
        _variant: &'static str,
    ) -> Result<usize>
        ensures { IsUnsupported self.old result self.new }
    {
        self.refuse_type()
    }

    /// Only fails, with `UnsupportedType`: a variant is written by `serialize_choice` of its value.
    pub fn serialize_newtype_variant<T: Serialize>(
        &mut self,
        _name: &'static str,
        _index: u32,
        _variant: &'static str,
        _value: &T,
    ) -> Result<usize>
        ensures { IsUnsupported self.old result self.new }
    {
        self.refuse_type()
    }

    /// Only fails, with `UnsupportedType`: a variant is written by `serialize_choice` of its value, here of a tuple.
    pub fn serialize_tuple_variant(
        &mut self,
        _name: &'static str,
        _index: u32,
        _variant: &'static str,
        _len: usize,
    ) -> Result<usize>
        ensures { IsUnsupported self.old result self.new }
    {
        self.refuse_type()
    }

    /// Only fails, with `UnsupportedType`: a variant is written by `serialize_choice` of its value, here of a struct.
    pub fn serialize_struct_variant(
        &mut self,
        _name: &'static str,
        _index: u32,
        _variant: &'static str,
        _len: usize,
    ) -> Result<usize>
        ensures { IsUnsupported self.old result self.new }
    {
        self.refuse_type()
    }
}
