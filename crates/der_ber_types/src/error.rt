//! Why bytes have no DER by a type.
ghost use Rattle.std.specs.Prelude.{◌≡◌};

use der_ber::{BerError, BerRule};
use std::alloc::{AllocError, AllocFailed};

/// Why bytes have no DER by a type.
#[derive(Debug, Clone, Copy, PartialEq, Eq)]
pub enum ToDerError {
    /// An allocation failed, or the DER would have 2^64 bytes or more.
    OutOfMemory,
    /// The bytes aren't elements in BER, whatever the type is.
    Broken {
        /// The index of the tag of the first element that breaks a rule, or where an element has to be and the bytes
        /// end.
        position: usize,
        /// The rule.
        rule: BerRule,
    },
    /// The elements aren't those of one value of the type.
    OtherType,
}

/// The same error.
impl From<BerError> for ToDerError {
    ghost use Rattle.der_ber_types.specs.Errors.{same_error};

    ghost from_gives = { λ e k. k ≡ same_error e };

    fn from(error: BerError) -> Self {
        match error {
            BerError::OutOfMemory => Self::OutOfMemory,
            BerError::Broken { position, rule } => Self::Broken { position, rule },
        }
    }
}

// Why elements aren't those of a type.
#[derive(Clone, Copy)]
pub(crate) enum TypeError {
    // An allocation failed.
    OutOfMemory,
    // They aren't those of one value of it.
    OtherType,
}

// Out of memory.
impl From<AllocError> for TypeError {
    ghost use Rattle.der_ber_types.specs.declared.error.TypeError.TheVariants.{OutOfMemory};

    ghost from_gives = { λ e k. k ≡ OutOfMemory };

    fn from(_error: AllocError) -> Self {
        Self::OutOfMemory
    }
}

// Out of memory. The value that could not be stored is dropped.
impl<T: Drop> From<AllocFailed<T>> for TypeError {
    ghost use Rattle.der_ber_types.specs.declared.error.TypeError.TheVariants.{OutOfMemory};

    ghost from_gives = { λ e k. k ≡ OutOfMemory };

    fn from(_failed: AllocFailed<T>) -> Self {
        Self::OutOfMemory
    }
}

// The same error.
impl From<TypeError> for ToDerError {
    ghost use Rattle.der_ber_types.specs.Errors.{type_error};

    ghost from_gives = { λ e k. k ≡ type_error e };

    fn from(error: TypeError) -> Self {
        match error {
            TypeError::OutOfMemory => Self::OutOfMemory,
            TypeError::OtherType => Self::OtherType,
        }
    }
}
