//! The calls of the Rust crate that only fail with `UnsupportedType`: numbers with a sign, and maps.
ghost use Rattle.picky_der_de.specs.Refusing.{IsUnsupported};

use super::Deserializer;
use picky_der_core::misc::ReadExt;
use picky_der_core::{Asn1DerError, Result};

impl<R: ReadExt> Deserializer<R> {
    // Fails with `UnsupportedType`, unless it has failed before.
    fn refuse_type(&mut self) -> Result<()>
        ensures { IsUnsupported self.old result self.new }
    {
        Err(self.refuse(Asn1DerError::UnsupportedType))
    }

    /// Only fails, with `UnsupportedType`: `i8::deserialize(..)` reads such a number. As in all calls below, nothing is
    /// consumed or allocated.
    pub fn deserialize_i8(&mut self) -> Result<()>
        ensures { IsUnsupported self.old result self.new }
    {
        self.refuse_type()
    }

    /// Only fails, with `UnsupportedType`: `i16::deserialize(..)` reads such a number.
    pub fn deserialize_i16(&mut self) -> Result<()>
        ensures { IsUnsupported self.old result self.new }
    {
        self.refuse_type()
    }

    /// Only fails, with `UnsupportedType`: `i32::deserialize(..)` reads such a number.
    pub fn deserialize_i32(&mut self) -> Result<()>
        ensures { IsUnsupported self.old result self.new }
    {
        self.refuse_type()
    }

    /// Only fails, with `UnsupportedType`: `i64::deserialize(..)` reads such a number.
    pub fn deserialize_i64(&mut self) -> Result<()>
        ensures { IsUnsupported self.old result self.new }
    {
        self.refuse_type()
    }

    /// Only fails, with `UnsupportedType`: `i128::deserialize(..)` reads such a number.
    pub fn deserialize_i128(&mut self) -> Result<()>
        ensures { IsUnsupported self.old result self.new }
    {
        self.refuse_type()
    }

    /// Only fails, with `UnsupportedType`: a list of pairs, such as a `Vec<(K, V)>`, is read by its `deserialize`.
    pub fn deserialize_map(&mut self) -> Result<()>
        ensures { IsUnsupported self.old result self.new }
    {
        self.refuse_type()
    }
}
