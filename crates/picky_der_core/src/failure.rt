//! What a serializer or a deserializer keeps of the error it failed with.
ghost use Rattle.std.specs.Prelude.{◌≡◌};
ghost use Rattle.picky_der_core.specs.Failure.{failure_of};

use crate::Asn1DerError;
use std::io::ErrorKind;

/// The kind of the error that a serializer or a deserializer has failed with: the error without the text of its
/// message.
#[derive(Debug, Clone, Copy, PartialEq, Eq)]
pub enum Failure {
    /// Of `Asn1DerError::TruncatedData`.
    TruncatedData,

    /// Of `Asn1DerError::InvalidData`.
    InvalidData,

    /// Of `Asn1DerError::UnsupportedValue`.
    UnsupportedValue,

    /// Of `Asn1DerError::UnsupportedType`.
    UnsupportedType,

    /// Of `Asn1DerError::InvalidSink`.
    InvalidSink,

    /// Of `Asn1DerError::Message` with any text.
    Message,

    /// Of `Asn1DerError::Other` with the same kind.
    Other(ErrorKind),

    /// Of `Asn1DerError::OutOfMemory`.
    OutOfMemory,
}

impl Failure {
    /// The kind of this error.
    #[tactic(auto, unfolding(crate::specs::Failure::failure_of))]
    pub fn of(error: Asn1DerError) -> Failure
        ensures { result ≡ failure_of error }
    {
        match error {
            Asn1DerError::TruncatedData => Failure::TruncatedData,
            Asn1DerError::InvalidData => Failure::InvalidData,
            Asn1DerError::UnsupportedValue => Failure::UnsupportedValue,
            Asn1DerError::UnsupportedType => Failure::UnsupportedType,
            Asn1DerError::InvalidSink => Failure::InvalidSink,
            Asn1DerError::Message(_) => Failure::Message,
            Asn1DerError::Other(kind) => Failure::Other(kind),
            Asn1DerError::OutOfMemory => Failure::OutOfMemory,
        }
    }

    /// An error of this kind. A message says that the call before it was refused.
    #[tactic(auto, unfolding(crate::specs::Failure::failure_of))]
    pub fn error(self) -> Asn1DerError
        ensures { failure_of result ≡ self }
    {
        match self {
            Failure::TruncatedData => Asn1DerError::TruncatedData,
            Failure::InvalidData => Asn1DerError::InvalidData,
            Failure::UnsupportedValue => Asn1DerError::UnsupportedValue,
            Failure::UnsupportedType => Asn1DerError::UnsupportedType,
            Failure::InvalidSink => Asn1DerError::InvalidSink,
            Failure::Message => Asn1DerError::Message("failed before"),
            Failure::Other(kind) => Asn1DerError::Other(kind),
            Failure::OutOfMemory => Asn1DerError::OutOfMemory,
        }
    }
}
