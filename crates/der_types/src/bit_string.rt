//! Bit strings.
ghost use Rattle.std.specs.Prelude.{◌≡◌, ◌⊎◌, ◌∷◌, ◌<◌, ◌==◌, true, false, drop, length, slice_index, slice_get, IfOk};
ghost use Rattle.std.specs.Prelude.{IfErr};
ghost use Rattle.der_types.specs.BitString.{is_bit_string, bit_string_content, bits_of};

use crate::Contents;
use crate::bits::{bit_of, content_of, len_of};
use picky_der_core::{Asn1DerError, Result};
use std::alloc::Global;

/// A bit string (X.690, 8.6), kept as its content: a byte with the number of unused bits, then the bytes. At most 7
/// bits of the last byte are unused, and unused bits are zero (11.2.1).
///
/// It prints as its bits, as `'1011'B` (X.680, 12.10). Its order is that of the bytes of its content.
#[derive(Drop, PartialEq, Eq, PartialOrd, Ord, Hash)]
pub struct BitString {
    pub(crate) content: Vec<u8>,
    ghost canonical: { is_bit_string content.items ≡ true },
}

impl BitString {
    /// Returns the bits of these bytes, highest bit first. The lowest `unused` bits of the last byte don't count.
    ///
    /// `InvalidData` if `unused` is above 7, if an unused bit is one, or if there is no byte and `unused` isn't 0.
    /// `OutOfMemory` if the allocation fails.
    pub fn from_bytes(alloc: Global, bytes: &[u8], unused: u8) -> Result<BitString>
        ensures ok { IfOk result (λ it. it.content.items ≡ unused ∷ bytes.now) }
        ensures err { IfErr result (λ e. (e ≡ Asn1DerError.OutOfMemory)
            ⊎ (is_bit_string (unused ∷ bytes.now) ≡ false) × (e ≡ Asn1DerError.InvalidData)) }
    {
        let mut content = Vec::new(alloc);
        content.push(unused)?;
        content.extend_from_slice(bytes)?;
        match BitString::from_content(content) {
            Some(value) => Ok(value),
            None => Err(Asn1DerError::InvalidData),
        }
    }

    /// Returns the bit string of these bits, first bit first. `OutOfMemory` if the allocation fails.
    pub fn from_bits(alloc: Global, bits: &[bool]) -> Result<BitString>
        ensures ok { IfOk result (λ it. it.content.items ≡ bit_string_content bits.now) }
        ensures err { IfErr result (λ e. e ≡ Asn1DerError.OutOfMemory) }
    {
        let content = content_of(alloc, bits)?;
        Ok(BitString { content })
    }

    /// Returns its content (X.690, 8.6.2): a byte with the number of unused bits, and the bytes of the bits.
    pub fn content(&self) -> &[u8]
        ensures { result.now ≡ self.now.content.items }
    {
        &self.content
    }

    /// Returns how many of the lowest bits of the last byte are unused, at most 7.
    pub fn unused(&self) -> u8
        ensures value { result ≡ slice_index self.now.content.items 0 }
        ensures few { result < 8 }
    {
        self.content[0]
    }

    /// Returns the bytes. Unused bits of the last byte are zero.
    pub fn bytes(&self) -> &[u8]
        ensures { result.now ≡ drop 1 self.now.content.items }
    {
        &self.content[1..]
    }

    /// Returns how many bits there are. It is a `u128`, since a vector may have more than `u64::MAX` / 8 bytes.
    pub fn len(&self) -> u128
        ensures { result ≡ length (bits_of self.now.content.items) }
    {
        len_of(&self.content)
    }

    /// Returns whether there are no bits.
    pub fn is_empty(&self) -> bool
        ensures { result ≡ (length (bits_of self.now.content.items) == 0) }
    {
        self.len() == 0
    }

    /// Returns the bit with this index, or `None` if there are fewer bits. The index of the first bit is 0 (X.690,
    /// 8.6.2.1).
    pub fn bit(&self, index: usize) -> Option<bool>
        ensures { result ≡ slice_get (bits_of self.now.content.items) index }
    {
        bit_of(&self.content, index)
    }
}
