//! The forms of rows.

use crate::bits::{bits_of, changed, numbered, octets};
use crate::integers::Way;
use crate::messages::trials::Task;
use crate::outcomes::{made, read};
use crate::{bounds, integers, messages, strings, texts, times, traits, usages};
use der_types::{
    BitString, GeneralizedTime, NamedBits, ObjectIdentifier, RelativeOid, Time, UtcTime,
};
use der_x509::KeyUsage;
use std::alloc::{AllocError, Global};

/// Returns the result of a row. An empty line is its own result, and so is a heading, which begins with `#`.
///
/// | Row | Result |
/// |---|---|
/// | `read TYPE BYTES`, `fit TYPE BYTES` | what an INTEGER or an ENUMERATED is read as: by itself, or through an `Integer` |
/// | `write TYPE NUMBER`, `make TYPE NUMBER` | what a number is written as, likewise |
/// | `utc BYTES`, `generalized BYTES`, `time BYTES` | the time that is read, and how it is written |
/// | `date NUMBERS` | how a date and time is written |
/// | `parse TEXT` | the date and time that the text is |
/// | `order BYTES, BYTES` | which of two GeneralizedTimes is first |
/// | `oid ARCS`, `relative ARCS`, `read-oid BYTES`, `read-relative BYTES` | object identifiers |
/// | `bits DIGITS`, `octets UNUSED BYTES`, `flags DIGITS`, `read-bits BYTES`, `read-flags BYTES` | bit strings, and bits with names |
/// | `flags-of NUMBERS`, `set-flag NUMBER true BYTES` | bits by their numbers |
/// | `usage NAMES`, `read-usage BYTES`, `usage-in BYTES` | key usages, the last one of a certificate |
/// | `text TYPE NUMBERS`, `string TYPE BYTES`, `characters TYPE` | character strings |
/// | `bounded TYPE BYTES` | a value within bounds |
/// | `print TYPE BYTES` | what a copy prints as, what the value prints as for debugging, and whether both are equal |
/// | `compare BYTES, BYTES` | how two INTEGERs are ordered |
/// | `traits` | `named`, since the library's types have the traits that `traits.rt` names |
/// | `message TYPE BYTES` | how a message is read and written back |
/// | `try TYPE BYTES` | the same with all prefixes and changes |
/// | `signed TYPE BYTES` | the bytes that are signed |
pub(crate) fn result_of(alloc: Global, row: &str) -> Result<String, AllocError> {
    let (word, rest) = row.split_once(' ').unwrap_or((row, ""));
    match word {
        "message" => messages::result_of(alloc, Task::Read, rest),
        "try" => messages::result_of(alloc, Task::Try, rest),
        "signed" => messages::signed_part(alloc, rest),
        "read" => integers::read(alloc, Way::Number, rest),
        "fit" => integers::read(alloc, Way::Value, rest),
        "write" => integers::write(alloc, Way::Number, rest),
        "make" => integers::write(alloc, Way::Value, rest),
        "#" | "##" | "" => String::from_str(alloc, row),
        _ => of_content(alloc, word, rest),
    }
}

// The result of a row of a time, a string or a value within bounds. Other rows go to the next family.
fn of_content(alloc: Global, word: &str, rest: &str) -> Result<String, AllocError> {
    match word {
        "utc" => read::<UtcTime>(alloc, "refused ", rest),
        "generalized" => read::<GeneralizedTime>(alloc, "refused ", rest),
        "time" => read::<Time>(alloc, "refused ", rest),
        "date" => times::date(alloc, rest),
        "parse" => times::parsed(alloc, rest),
        "order" => times::order(alloc, rest),
        "text" => strings::text(alloc, rest),
        "string" => strings::string(alloc, rest),
        "characters" => strings::characters(alloc, rest),
        "print" => texts::print(alloc, rest),
        "compare" => texts::compare(alloc, rest),
        "traits" => traits::all(alloc),
        "bounded" => bounds::bounded(alloc, rest),
        _ => of_bits(alloc, word, rest),
    }
}

// The result of a row of object identifiers or of bits.
fn of_bits(alloc: Global, word: &str, rest: &str) -> Result<String, AllocError> {
    match word {
        "oid" => made(alloc, ObjectIdentifier::from_str(alloc, rest)),
        "relative" => made(alloc, RelativeOid::from_str(alloc, rest)),
        "read-oid" => read::<ObjectIdentifier>(alloc, "", rest),
        "read-relative" => read::<RelativeOid>(alloc, "", rest),
        "bits" => made(alloc, BitString::from_bits(alloc, &bits_of(alloc, rest)?)),
        "octets" => octets(alloc, rest),
        "flags" => made(alloc, NamedBits::from_bits(alloc, &bits_of(alloc, rest)?)),
        "flags-of" => numbered(alloc, rest),
        "set-flag" => changed(alloc, rest),
        "read-bits" => read::<BitString>(alloc, "", rest),
        "read-flags" => read::<NamedBits>(alloc, "", rest),
        "usage" => made(
            alloc,
            KeyUsage::from_flags(alloc, &usages::flags_of(alloc, rest)?),
        ),
        "usage-in" => usages::of_certificate(alloc, rest),
        "read-usage" => read::<KeyUsage>(alloc, "", rest),
        _ => String::from_str(alloc, "unknown row"),
    }
}
