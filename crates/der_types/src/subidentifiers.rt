//! Numbers in base 128, which the contents of object identifiers consist of (X.690, 8.19.2).
ghost use Rattle.std.specs.Prelude.{◌≡◌, ◌≤◌, ◌<◌, ◌+◌, ◌*◌, ◌^◌, ◌++◌, ◌∷◌, [], ℕ, min, OnOk, IfSome, IfNone};
ghost use Rattle.der_types.specs.Subidentifiers.{marked, subidentifier, subidentifiers, is_subidentifiers};
ghost use Rattle.der_types.specs.Subidentifiers.{numbers_after};

use std::alloc::AllocError;

/// Returns whether the bytes are one or more complete numbers, each in the fewest bytes (X.690, 8.19.2). The content of
/// an OBJECT IDENTIFIER is such bytes, and so is that of a RELATIVE-OID.
pub fn is_subidentifiers(bytes: &[u8]) -> bool
    ensures { result ≡ is_subidentifiers bytes.now }
{
    let mut is_inside = false;
    for byte in bytes {
        if !is_inside && *byte == 0x80 {
            return false;
        }
        is_inside = *byte >= 0x80;
    }
    !is_inside && !bytes.is_empty()
}

// Appends the digits of a number as digits that others follow (bit 8 is set).
fn push_marked(bytes: &mut Vec<u8>, number: u128) -> Result<(), AllocError>
    ensures { OnOk result (bytes.new.items ≡ bytes.old.items ++ marked number) }
{
    if number > 0 {
        push_marked(bytes, number / 128)?;
        bytes.push(0x80 + (number % 128) as u8)?;
    }
    Ok(())
}

// Appends a number.
pub(crate) fn push_subidentifier(bytes: &mut Vec<u8>, number: u128) -> Result<(), AllocError>
    ensures { OnOk result (bytes.new.items ≡ bytes.old.items ++ subidentifier number) }
{
    push_marked(bytes, number / 128)?;
    bytes.push((number % 128) as u8)?;
    Ok(())
}

// Appends numbers.
pub(crate) fn push_subidentifiers(bytes: &mut Vec<u8>, numbers: &[u64]) -> Result<(), AllocError>
    ensures { OnOk result (bytes.new.items ≡ bytes.old.items ++ subidentifiers numbers.now) }
{
    for number in numbers {
        push_subidentifier(bytes, u128::from(*number))?;
    }
    Ok(())
}

// Numbers from here on are all read as this one. The greatest first number of arcs that fit `u64` is below it.
const CAP: u128 = 1 << 65;

// The number with one more digit, or the cap if that is less.
fn with_digit(number: u128, digit: u8) -> u128
    requires number { number ≤ 2 ^ 65 }
    requires digit { digit < 128 }
    ensures { result ≡ min (number * 128 + digit) (2 ^ 65) }
{
    CAP.min(number * 128 + u128::from(digit))
}

// Returns the first number, or the cap if that is less, and the bytes after it.
pub(crate) fn split_number(bytes: &[u8]) -> Option<(u128, &[u8])>
    ensures some { IfSome result (λ pair. (n : ℕ)
        × (numbers_after 0 bytes.now ≡ n ∷ numbers_after 0 pair.1.now)
        × (pair.0 ≡ min n (2 ^ 65))) }
    ensures none { IfNone result (numbers_after 0 bytes.now ≡ []) }
{
    let mut number = 0;
    for (index, byte) in bytes.iter().enumerate() {
        if *byte < 0x80 {
            return Some((with_digit(number, *byte), &bytes[index + 1..]));
        }
        number = with_digit(number, *byte - 0x80);
    }
    None
}
