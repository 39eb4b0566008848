//! Why arcs or a text aren't an object identifier.

use std::alloc::{AllocError, AllocFailed};
use thiserror::Error;

/// Why arcs or a text aren't an object identifier, or not a relative one. It prints as the reason.
#[derive(Debug, Clone, Copy, PartialEq, Eq, PartialOrd, Ord, Hash, Error)]
pub enum OidError {
    /// There are too few arcs: an object identifier has at least two, and a relative one at least one.
    #[error("too few arcs")]
    TooFewArcs,

    /// The first arc of an object identifier isn't 0, 1 or 2.
    #[error("the first arc is above 2")]
    FirstArc,

    /// The second arc of an object identifier is above 39, and the first is 0 or 1.
    #[error("the second arc is above 39")]
    SecondArc,

    /// A part of the text isn't a decimal number: it is empty, has a leading 0, or has another character.
    #[error("an arc isn't a decimal number")]
    NotANumber,

    /// An arc is above `u64::MAX`.
    #[error("an arc is above 18446744073709551615")]
    ArcTooLarge,

    /// The allocation failed.
    #[error("out of memory")]
    OutOfMemory,
}

impl From<AllocError> for OidError {
    ghost use Rattle.der_types.specs.declared.oid_error.OidError.TheVariants.{OutOfMemory};
    ghost use Rattle.std.specs.Prelude.{◌≡◌};

    ghost from_gives = { λ e k. k ≡ OutOfMemory };

    fn from(_error: AllocError) -> OidError {
        OidError::OutOfMemory
    }
}

/// The value that could not be stored is dropped.
impl<T: Drop> From<AllocFailed<T>> for OidError {
    ghost use Rattle.der_types.specs.declared.oid_error.OidError.TheVariants.{OutOfMemory};
    ghost use Rattle.std.specs.Prelude.{◌≡◌};

    ghost from_gives = { λ e k. k ≡ OutOfMemory };

    fn from(_failed: AllocFailed<T>) -> OidError {
        OidError::OutOfMemory
    }
}
