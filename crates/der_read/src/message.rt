//! Messages: the types that words and labels name, and those of which bytes are a message.
ghost use Rattle.std.specs.Prelude.{◌≡◌, ◌≢◌, All, IfOk, IfSome, IfNone, MatchOption};
ghost use Rattle.std.specs.List.{Contains};
ghost use Rattle.der_read.specs.Described.{described};
ghost use Rattle.der_read.specs.Fitting.{AreFitting};
ghost use Rattle.der_read.specs.Message.{IsRefusalOf};
ghost use Rattle.der_read.specs.Types.{word_of, labels_of, tried_types};

use crate::message_type::{ALL_TYPES, TRIED_TYPES};
use crate::{MessageType, refusal_of};
use picky_asn1_der::{Asn1DerError, DecodeError, Deserialize, from_der};
use std::alloc::{AllocError, Global};

/// Returns the type that this word names, or `None` if it names none.
pub fn type_of_word(word: &str) -> Option<MessageType>
    ensures { MatchOption result ((type : MessageType) → word_of type ≢ word.now)
        (λ type. word_of type ≡ word.now) }
{
    type_with_word(&ALL_TYPES, word)
}

// The first of these types that has a word.
fn type_with_word(types: &[MessageType], word: &str) -> Option<MessageType>
    ensures some { IfSome result (λ type. word_of type ≡ word.now) }
    ensures none { IfNone result (All (λ type. word_of type ≢ word.now) types.now) }
{
    types.iter().copied().find(|named| named.word() == word)
}

/// Returns the type of the message in a block of PEM with this label (RFC 7468, 4 to 13), or `None` if the label is
/// that of no type.
pub fn type_of_label(label: &[u8]) -> Option<MessageType>
    ensures { MatchOption result ((type : MessageType) → Contains (labels_of type) label.now → ⊥)
        (λ type. Contains (labels_of type) label.now) }
{
    type_with_label(&ALL_TYPES, label)
}

// The first of these types that has a label.
fn type_with_label(types: &[MessageType], label: &[u8]) -> Option<MessageType>
    ensures some { IfSome result (λ type. Contains (labels_of type) label.now) }
    ensures none { IfNone result (All (λ type. Contains (labels_of type) label.now → ⊥) types.now) }
{
    types.iter().copied().find(|named| named.has_label(label))
}

/// Returns the types of which bytes are exactly one message, in the order in which types are tried. The only error is a
/// failed allocation.
pub fn types_of(alloc: Global, bytes: &[u8]) -> Result<Vec<MessageType>, AllocError>
    ensures { IfOk result (λ types. AreFitting bytes.now tried_types types.items) }
{
    fitting_types(alloc, &TRIED_TYPES, bytes)
}

// Those of these types of which the bytes are exactly one message.
fn fitting_types(
    alloc: Global,
    tried: &[MessageType],
    bytes: &[u8],
) -> Result<Vec<MessageType>, AllocError>
    ensures { IfOk result (λ types. AreFitting bytes.now tried.now types.items) }
{
    let mut fitting = Vec::new(alloc);
    for named in tried {
        if refusal_of(alloc, *named, bytes)?.is_none() {
            fitting.push(*named)?;
        }
    }
    Ok(fitting)
}

// Why the bytes aren't exactly the encoding of one value of a type, or `None` if they are.
pub(crate) fn refusal_as<T: Deserialize>(
    alloc: Global,
    bytes: &[u8],
) -> Result<Option<DecodeError>, AllocError>
    ensures { IfOk result (IsRefusalOf (described T.meaning T.shape) bytes.now) }
{
    match from_der::<T>(alloc, bytes) {
        Ok(_) => Ok(None),
        Err(refusal) => Ok(Some(reported(refusal)?)),
    }
}

// The refusal, unless an allocation failed.
pub(crate) fn reported(refusal: DecodeError) -> Result<DecodeError, AllocError>
    ensures { IfOk result (λ it. (it ≡ refusal) × (it.error ≢ Asn1DerError.OutOfMemory)) }
{
    match refusal.error {
        Asn1DerError::OutOfMemory => Err(AllocError),
        _ => Ok(refusal),
    }
}
