//! The uses of a key, as flags.
ghost use Rattle.std.specs.Prelude.{◌≡◌, IfOk, IfErr};
ghost use Rattle.picky_der_core.specs.Equality.{IsEqualityOf, IsKept};
ghost use Rattle.der_types.specs.BitString.{bit_string_content, without_zeros};
ghost use Rattle.der_x509.specs.by_hand.KeyUsage.{flag_bits, has_flag, is_listed};

use crate::KeyUsage;
use der_types::{Contents, NamedBits};
use picky_asn1_der::{Asn1DerError, Result};
use std::alloc::Global;

/// A use of a key, in the order of the bits of `KeyUsage` (RFC 5280, 4.2.1.3).
#[derive(Debug, Clone, Copy, PartialEq, Eq)]
pub enum KeyUsageFlag {
    /// To verify signatures, except on certificates and on lists of revoked certificates: bit 0.
    DigitalSignature,
    /// To verify signatures that the signer can't deny: bit 1. RFC 5280 also calls it `nonRepudiation`.
    ContentCommitment,
    /// To encrypt keys: bit 2.
    KeyEncipherment,
    /// To encrypt data that isn't a key: bit 3.
    DataEncipherment,
    /// To agree on a key: bit 4.
    KeyAgreement,
    /// To verify signatures on certificates: bit 5.
    KeyCertSign,
    /// To verify signatures on lists of revoked certificates: bit 6.
    CrlSign,
    /// With `KeyAgreement`, only to encrypt: bit 7.
    EncipherOnly,
    /// With `KeyAgreement`, only to decrypt: bit 8.
    DecipherOnly,
}

impl KeyUsageFlag {
    /// Two are equal exactly if they are one flag.
    pub fn equality()
        ensures { IsEqualityOf ⟦<KeyUsageFlag as PartialEq>⟧.eq (λ flag. flag) }
    {}

    /// A copy is the same flag.
    pub fn copies()
        ensures { IsKept ⟦<KeyUsageFlag as Clone>⟧.is_clone (λ flag. flag) }
    {}
}

impl KeyUsage {
    /// Returns the set of these flags. Their order doesn't matter, and a flag may occur twice. `OutOfMemory` if the
    /// allocation fails.
    pub fn from_flags(alloc: Global, flags: &[KeyUsageFlag]) -> Result<KeyUsage>
        ensures flags { IfOk result (λ it. (flag : KeyUsageFlag)
            → has_flag it flag ≡ is_listed flags.now flag) }
        ensures content { IfOk result (λ it. ⟦<NamedBits as Contents>⟧.content it.0
            ≡ bit_string_content (without_zeros (flag_bits flags.now))) }
        ensures err { IfErr result (λ e. e ≡ Asn1DerError.OutOfMemory) }
    {
        let bits = [
            flags.contains(&KeyUsageFlag::DigitalSignature),
            flags.contains(&KeyUsageFlag::ContentCommitment),
            flags.contains(&KeyUsageFlag::KeyEncipherment),
            flags.contains(&KeyUsageFlag::DataEncipherment),
            flags.contains(&KeyUsageFlag::KeyAgreement),
            flags.contains(&KeyUsageFlag::KeyCertSign),
            flags.contains(&KeyUsageFlag::CrlSign),
            flags.contains(&KeyUsageFlag::EncipherOnly),
            flags.contains(&KeyUsageFlag::DecipherOnly),
        ];
        Ok(KeyUsage(NamedBits::from_bits(alloc, &bits)?))
    }

    /// Returns whether the set contains the flag.
    pub fn contains(&self, flag: KeyUsageFlag) -> bool
        ensures { result ≡ has_flag self.now flag }
    {
        self.0.bit(flag as usize)
    }
}
