//! Whole inputs: bytes that are the encoding of one value and nothing else.
ghost use Rattle.std.specs.Prelude.{◌≡◌, ◌↔◌, length, IsTrue, IfOk, IfErr};
ghost use Rattle.picky_der_core.specs.Equality.{IsKept};
ghost use Rattle.picky_der_de.specs.Rules.{RefusesWholeBy};
ghost use Rattle.picky_der_de.specs.Whole.{IsWhole, IsNoEncoding};

use crate::{Deserialize, Deserializer};
use picky_der_core::Asn1DerError;
use std::alloc::Global;
use std::result::Result;
use thiserror::Error;

/// Why bytes are no value, and where this was found. It prints as `InvalidData at byte 8`.
#[derive(Debug, Clone, Copy, PartialEq, Eq, Error)]
#[error("{error} at byte {position}")]
pub struct DecodeError {
    /// The error.
    pub error: Asn1DerError,
    /// How many bytes had been consumed.
    pub position: usize,
}

impl DecodeError {
    /// Two are equal exactly if their errors are equal and their positions are the same.
    pub fn equality()
        ensures { (x y : DecodeError) → IsTrue (⟦<DecodeError as PartialEq>⟧.eq x y)
            ↔ IsTrue (⟦<Asn1DerError as PartialEq>⟧.eq x.error y.error) × (x.position ≡ y.position) }
    {}

    /// A copy is the same error at the same position.
    pub fn copies()
        ensures { IsKept ⟦<DecodeError as Clone>⟧.is_clone (λ refusal. refusal) }
    {}
}

/// Keeps the error, without the position.
impl From<DecodeError> for Asn1DerError {
    ghost from_gives = { λ decode error. error ≡ decode.error };

    fn from(decode: DecodeError) -> Asn1DerError {
        decode.error
    }
}

/// The value whose encoding is exactly these bytes. There is at most one.
///
/// An error other than `OutOfMemory` means that they aren't the encoding of a value. Unless it is `TruncatedData`, no
/// bytes after them could make them one. Bytes after the encoding of a value are `InvalidData`, at the position after
/// it.
///
/// The error and the position are those of the type's rule.
pub fn from_der<T: Deserialize>(alloc: Global, bytes: &[u8]) -> Result<T, DecodeError>
    ensures ok { IfOk result (IsWhole T.meaning T.shape T.eq bytes.now) }
    ensures err { IfErr result (λ refusal. IsNoEncoding T.meaning T.shape bytes.now
        refusal.error refusal.position) }
    ensures refused_by { IfErr result (λ refusal. RefusesWholeBy T.meaning T.shape T.facts.rule
        bytes.now refusal.error refusal.position) }
{
    let mut de = Deserializer::new_from_reader(alloc, bytes, bytes.len());
    let outcome = T::deserialize(&mut de);
    let position = de.taken();
    // No effect at run time.
    de.has_no_faults();
    match outcome {
        Ok(value) => {
            if position < bytes.len() {
                return Err(DecodeError {
                    error: Asn1DerError::InvalidData,
                    position,
                });
            }
            Ok(value)
        }
        Err(error) => Err(DecodeError { error, position }),
    }
}
