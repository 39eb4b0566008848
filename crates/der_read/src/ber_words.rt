//! Why bytes aren't BER of a message, in words. The only error of each function is a failed allocation.
ghost use Rattle.std.specs.Prelude.{◌≡◌, IfOk, string_bytes};
ghost use Rattle.serde_json.specs.View.{view};
ghost use Rattle.der_read.specs.BerPrinted.{rule_words, ber_refusal_text, ber_offset_data};

use der_ber::BerRule;
use der_ber_types::ToDerError;
use serde_json::Value;
use std::alloc::{AllocError, Global};

// What is wrong, with the clause of X.690. A level of more than `MAX_DEPTH` constructed elements isn't read.
fn rule_words(rule: BerRule) -> &'static str
    ensures { result.now ≡ rule_words rule }
{
    match rule {
        BerRule::CutHeader =>
            "the bytes end within a header, or before an end-of-contents (X.690, 8.1.1, 8.1.3.6)",
        BerRule::LongTag => "the tag number is above 30, which isn't read here (X.690, 8.1.2.4)",
        BerRule::EndOfContents => "end-of-contents bytes that end no element (X.690, 8.1.5)",
        BerRule::ReservedLength => "the first byte of the length is FF (X.690, 8.1.3.5)",
        BerRule::PastEnd =>
            "the content ends after the input or the element around it (X.690, 8.1.4)",
        BerRule::IndefinitePrimitive =>
            "the length of a primitive encoding is indefinite (X.690, 8.1.3.2)",
        BerRule::TooDeep => "over 128 constructed elements in one another, which aren't read here",
        BerRule::WrongPart =>
            "a part of a string has another tag than parts have (X.690, 8.6.4.1, 8.7.3.2)",
        BerRule::UnusedBits =>
            "a part of a BIT STRING has a wrong count of unused bits (X.690, 8.6.2.2, 8.6.4)",
    }
}

// Why bytes aren't BER of a value of a type.
pub(crate) fn refusal_text(alloc: Global, error: ToDerError) -> Result<String, AllocError>
    ensures { IfOk result (λ text. string_bytes text ≡ ber_refusal_text error) }
{
    match error {
        ToDerError::OutOfMemory => Err(AllocError),
        ToDerError::Broken { position, rule } => {
            let words = rule_words(rule);
            format!(in alloc; "not BER at {position}: {words}")
        }
        ToDerError::OtherType => String::from_str(alloc, "BER of a value of another type"),
    }
}

// Where that was found, or null.
pub(crate) fn refusal_offset(error: ToDerError) -> Value
    ensures { view result ≡ ber_offset_data error }
{
    match error {
        ToDerError::Broken { position, .. } => Value::from(position),
        ToDerError::OutOfMemory | ToDerError::OtherType => Value::Null,
    }
}
