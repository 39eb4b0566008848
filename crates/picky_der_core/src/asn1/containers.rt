//! Strings that hold an encoding (X.690, 8.6 and 8.7).
ghost use Rattle.std.specs.Prelude.{◌≡◌, IfOk, IfErr};

use crate::{Asn1DerError, Result};
use std::hash::Hash;

/// An octet string (X.690, 8.7) whose content is the encoding of a value.
#[derive(Debug, Clone, Drop, PartialEq, Eq, PartialOrd, Ord, Hash)]
pub struct OctetStringAsn1Container<T>(pub T);

impl<T: Clone> OctetStringAsn1Container<T> {
    /// A copy. `OutOfMemory` if an allocation fails.
    pub fn clone(&self) -> Result<OctetStringAsn1Container<T>>
        ensures same { IfOk result (λ copy. T.is_clone self.now.0 copy.0) }
        ensures memory { IfErr result (λ e. e ≡ Asn1DerError.OutOfMemory) }
    {
        Ok(OctetStringAsn1Container(self.0.clone()?))
    }
}

impl<T> From<T> for OctetStringAsn1Container<T> {
    ghost from_gives = { λ value wrapped. wrapped.0 ≡ value };

    fn from(value: T) -> OctetStringAsn1Container<T> {
        OctetStringAsn1Container(value)
    }
}

/// A bit string (X.690, 8.6.2) whose content is a byte 00, for no unused bits, and the encoding of a value.
#[derive(Debug, Clone, Drop, PartialEq, Eq, PartialOrd, Ord, Hash)]
pub struct BitStringAsn1Container<T>(pub T);

impl<T: Clone> BitStringAsn1Container<T> {
    /// A copy. `OutOfMemory` if an allocation fails.
    pub fn clone(&self) -> Result<BitStringAsn1Container<T>>
        ensures same { IfOk result (λ copy. T.is_clone self.now.0 copy.0) }
        ensures memory { IfErr result (λ e. e ≡ Asn1DerError.OutOfMemory) }
    {
        Ok(BitStringAsn1Container(self.0.clone()?))
    }
}

impl<T> From<T> for BitStringAsn1Container<T> {
    ghost from_gives = { λ value wrapped. wrapped.0 ≡ value };

    fn from(value: T) -> BitStringAsn1Container<T> {
        BitStringAsn1Container(value)
    }
}
