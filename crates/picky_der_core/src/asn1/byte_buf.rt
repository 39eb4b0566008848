//! Octet strings.
ghost use Rattle.std.specs.Prelude.{◌≡◌, IfOk, IfErr};

use crate::{Asn1DerError, Result};
use std::hash::Hash;

/// An octet string in a vector of its own (X.690, 8.7).
#[derive(Debug, Clone, Drop, PartialEq, Eq, PartialOrd, Ord, Hash)]
pub struct ByteBuf(pub Vec<u8>);

impl ByteBuf {
    /// A copy, on the same allocator. `OutOfMemory` if an allocation fails.
    pub fn clone(&self) -> Result<ByteBuf>
        ensures same { IfOk result (λ copy. copy.0.items ≡ self.now.0.items) }
        ensures memory { IfErr result (λ e. e ≡ Asn1DerError.OutOfMemory) }
    {
        Ok(ByteBuf(self.0.clone()?))
    }
}

impl From<Vec<u8>> for ByteBuf {
    ghost from_gives = { λ bytes octets. octets.0 ≡ bytes };

    fn from(bytes: Vec<u8>) -> ByteBuf {
        ByteBuf(bytes)
    }
}
