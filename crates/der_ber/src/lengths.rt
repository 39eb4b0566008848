//! Lengths in any form (X.690, 8.1.3).
ghost use Rattle.std.specs.Prelude.{◌≡◌, ◌≤◌, ◌^◌, MatchOption};
ghost use Rattle.std.specs.Int.Digits.{number_from_digits};
ghost use Rattle.der_ber.specs.Broken.{IsAnyLength};

use crate::BerRule;

// A number from here on doesn't fit into `usize` with one more byte.
const LAST_STEP: usize = 1 << 56;

// The number with these bytes, the most significant first, or `None` if it is 2^64 or more.
fn number_of(octets: &[u8]) -> Option<usize>
    ensures { MatchOption result (2 ^ 64 ≤ number_from_digits 256 octets.now)
        (λ number. number ≡ number_from_digits 256 octets.now) }
{
    let mut number: usize = 0;
    for octet in octets {
        if number >= LAST_STEP {
            return None;
        }
        number = number * 256 + usize::from(*octet);
    }
    Some(number)
}

// The length at the front of bytes, and the bytes after it.
#[derive(Clone, Copy)]
pub(crate) enum AnyLength<'a> {
    // Of the definite form.
    Definite { len: usize, after: &'a [u8] },
    // The one that announces the indefinite form.
    Indefinite { after: &'a [u8] },
    // None, since it breaks this rule.
    Broken(BerRule),
}

// The length at the front of these bytes. The rules are `CutHeader`, `ReservedLength`, and `PastEnd` for 2^64 and more.
pub(crate) fn split_length(bytes: &[u8]) -> AnyLength<'_>
    ensures { IsAnyLength bytes.now result }
{
    let [first, others @ ..] = bytes else {
        return AnyLength::Broken(BerRule::CutHeader);
    };
    let first = *first;
    if first < 0x80 {
        return AnyLength::Definite {
            len: usize::from(first),
            after: others,
        };
    }
    if first == 0x80 {
        return AnyLength::Indefinite { after: others };
    }
    if first == 0xFF {
        return AnyLength::Broken(BerRule::ReservedLength);
    }
    let count = usize::from(first - 0x80);
    if count > others.len() {
        return AnyLength::Broken(BerRule::CutHeader);
    }
    let (octets, after) = others.split_at(count);
    match number_of(octets) {
        Some(len) => AnyLength::Definite { len, after },
        None => AnyLength::Broken(BerRule::PastEnd),
    }
}
