//! Unsigned integer types.
ghost use Rattle.std.specs.Prelude.{◌≡◌, ◌<◌, ◌≤◌, ◌^◌, ◌-◌, ℕ, IfOk, IfErr};

use crate::{Asn1DerError, Result};

/// An unsigned integer type: one of 8 to 128 bits, or `usize`.
pub trait UInt: Sized + Copy {
    // The number, and the greatest one.
    ghost number: { Self → ℕ };

    ghost greatest: { ℕ };

    /// The same number, of 128 bits.
    fn into_u128(self) -> u128
        ensures { result ≡ number self };

    /// The same number, or `UnsupportedValue` past the type's greatest.
    fn from_u128(num: u128) -> Result<Self>
        ensures ok { IfOk result (λ value. (number value ≡ num) × (num ≤ greatest)) }
        ensures err { IfErr result (λ e. (e ≡ Asn1DerError.UnsupportedValue) × (greatest < num)) };
}

impl UInt for u8 {
    ghost number = { λ n. n };

    ghost greatest = { 2 ^ 8 - 1 };

    fn into_u128(self) -> u128 {
        u128::from(self)
    }

    fn from_u128(num: u128) -> Result<u8> {
        match u8::try_from(num) {
            Ok(value) => Ok(value),
            Err(_) => Err(Asn1DerError::UnsupportedValue),
        }
    }
}

impl UInt for u16 {
    ghost number = { λ n. n };

    ghost greatest = { 2 ^ 16 - 1 };

    fn into_u128(self) -> u128 {
        u128::from(self)
    }

    fn from_u128(num: u128) -> Result<u16> {
        match u16::try_from(num) {
            Ok(value) => Ok(value),
            Err(_) => Err(Asn1DerError::UnsupportedValue),
        }
    }
}

impl UInt for u32 {
    ghost number = { λ n. n };

    ghost greatest = { 2 ^ 32 - 1 };

    fn into_u128(self) -> u128 {
        u128::from(self)
    }

    fn from_u128(num: u128) -> Result<u32> {
        match u32::try_from(num) {
            Ok(value) => Ok(value),
            Err(_) => Err(Asn1DerError::UnsupportedValue),
        }
    }
}

impl UInt for u64 {
    ghost number = { λ n. n };

    ghost greatest = { 2 ^ 64 - 1 };

    fn into_u128(self) -> u128 {
        u128::from(self)
    }

    fn from_u128(num: u128) -> Result<u64> {
        match u64::try_from(num) {
            Ok(value) => Ok(value),
            Err(_) => Err(Asn1DerError::UnsupportedValue),
        }
    }
}

impl UInt for u128 {
    ghost number = { λ n. n };

    ghost greatest = { 2 ^ 128 - 1 };

    fn into_u128(self) -> u128 {
        self
    }

    fn from_u128(num: u128) -> Result<u128> {
        Ok(num)
    }
}

impl UInt for usize {
    ghost number = { λ n. n };

    ghost greatest = { 2 ^ 64 - 1 };

    fn into_u128(self) -> u128 {
        self as u128
    }

    fn from_u128(num: u128) -> Result<usize> {
        match usize::try_from(num) {
            Ok(value) => Ok(value),
            Err(_) => Err(Asn1DerError::UnsupportedValue),
        }
    }
}
