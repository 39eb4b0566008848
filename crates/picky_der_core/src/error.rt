//! The error of the workspace.
ghost use Rattle.std.specs.Prelude.{◌≡◌};
ghost use Rattle.std.specs.IoError.{error_kind};
ghost use Rattle.picky_der_core.specs.Error.{error_of_kind};

use std::alloc::{AllocError, AllocFailed};
use std::io::{self, ErrorKind};
use thiserror::Error;

/// Why a value could not be written or read.
///
/// It prints as the name of its variant; `Message` and `Other` show what they hold.
#[derive(Debug, Clone, Copy, PartialEq, Eq, Error)]
pub enum Asn1DerError {
    /// The data ended too early: the input, a content that can't be empty, or a sequence that lacks a member. A value
    /// that is only cut short gives no other error.
    #[error("TruncatedData")]
    TruncatedData,

    /// The data isn't the canonical encoding of a value of the type.
    #[error("InvalidData")]
    InvalidData,

    /// The value may be valid but isn't supported: a number that is too large, or a tag number past 30.
    #[error("UnsupportedValue")]
    UnsupportedValue,

    /// The serializer or the deserializer doesn't support the type.
    #[error("UnsupportedType")]
    UnsupportedType,

    /// The sink accepted fewer bytes than the encoding has.
    #[error("InvalidSink")]
    InvalidSink,

    /// A message from a hand-written implementation. It is `failed before` if an earlier call failed with a message. It
    /// is printed as it is.
    #[error("Message(\"{0}\")")]
    Message(&'static str),

    /// An I/O error of the reader or the writer, by its kind.
    #[error("Other({0:?})")]
    Other(ErrorKind),

    /// An allocation failed.
    #[error("OutOfMemory")]
    OutOfMemory,
}

impl Asn1DerError {
    /// An error with this message.
    pub fn custom(text: &'static str) -> Asn1DerError
        ensures { result ≡ Asn1DerError.Message text.entry }
    {
        Asn1DerError::Message(text)
    }
}

/// `UnexpectedEof` becomes `TruncatedData`, and `WriteZero` becomes `InvalidSink`. `OutOfMemory` stays `OutOfMemory`.
/// Any other kind becomes `Other`.
impl From<io::Error> for Asn1DerError {
    ghost from_gives = { λ e k. k ≡ error_of_kind (error_kind e) };

    #[tactic(auto, unfolding(crate::specs::Error::error_of_kind))]
    fn from(error: io::Error) -> Self {
        match error.kind() {
            ErrorKind::UnexpectedEof => Self::TruncatedData,
            ErrorKind::WriteZero => Self::InvalidSink,
            ErrorKind::OutOfMemory => Self::OutOfMemory,
            other => Self::Other(other),
        }
    }
}

/// Out of memory.
impl From<AllocError> for Asn1DerError {
    ghost use Rattle.picky_der_core.specs.declared.error.Asn1DerError.TheVariants.{OutOfMemory};

    ghost from_gives = { λ e k. k ≡ OutOfMemory };

    fn from(_error: AllocError) -> Self {
        Self::OutOfMemory
    }
}

/// Out of memory. The value that could not be stored is dropped.
impl<T: Drop> From<AllocFailed<T>> for Asn1DerError {
    ghost use Rattle.picky_der_core.specs.declared.error.Asn1DerError.TheVariants.{OutOfMemory};

    ghost from_gives = { λ e k. k ≡ OutOfMemory };

    fn from(_failed: AllocFailed<T>) -> Self {
        Self::OutOfMemory
    }
}

/// The result of the calls of the workspace.
pub type Result<Answer> = std::result::Result<Answer, Asn1DerError>;
