//! The bytes of bit strings (X.690, 8.6.2).
ghost use Rattle.std.specs.Prelude.{◌≡◌, ◌++◌, ◌-◌, ◌*◌, ◌≤◌, ◌<◌, ◌%◌, ◌^◌, ◌==◌, true, length, slice_get, OnOk, IfOk};
ghost use Rattle.std.specs.Prelude.{ℕ, false, slice_index_or, if◌then◌else◌};
ghost use Rattle.std.specs.List.{list_any};
ghost use Rattle.der_types.specs.BitString.{weigh, octets, bit_string_content, is_bit_string, is_bit_set};
ghost use Rattle.der_types.specs.BitString.{is_named_bits, byte_bit, bits_of, without_zeros};

use std::alloc::{AllocError, Global};

// Whether the lowest `count` bits of a byte are zero.
fn ends_in_zeros(byte: u8, count: u8) -> bool
    requires { count < 8 }
    ensures { result ≡ (byte % 2 ^ count == 0) }
{
    byte % (1 << count) == 0
}

// Whether the bytes are the content of a bit string: the number of unused bits, then bytes whose unused bits are zero.
pub(crate) fn is_bit_string(bytes: &[u8]) -> bool
    ensures { result ≡ is_bit_string bytes.now }
{
    match bytes {
        [] => false,
        [unused] => *unused == 0,
        [unused, .., last] => *unused < 8 && ends_in_zeros(*last, *unused),
    }
}

// Whether the bit with this number is one. Bit 0 is the lowest.
fn is_bit_set(byte: u8, number: u8) -> bool
    requires { number < 8 }
    ensures { result ≡ is_bit_set byte number }
{
    (byte >> number) % 2 == 1
}

// Whether the bytes are a bit string whose last bit is one, if it has any.
pub(crate) fn is_named_bits(bytes: &[u8]) -> bool
    ensures { result ≡ is_named_bits bytes.now }
{
    match bytes {
        [] => false,
        [unused] => *unused == 0,
        [unused, .., last] => {
            *unused < 8 && ends_in_zeros(*last, *unused) && is_bit_set(*last, *unused)
        }
    }
}

// The bit at this place of a byte. Place 0 is the highest bit.
pub(crate) fn byte_bit(byte: u8, place: u8) -> bool
    requires { place < 8 }
    ensures { result ≡ byte_bit byte place }
{
    is_bit_set(byte, 7 - place)
}

// How many bits a content has.
pub(crate) fn len_of(content: &[u8]) -> u128
    requires { is_bit_string content.now ≡ true }
    ensures { result ≡ length (bits_of content.now) }
{
    match content {
        [] => 0,
        [unused, ..] => 8 * (content.len() as u128 - 1) - u128::from(*unused),
    }
}

// The bit with this index, or `None` if there are fewer bits.
pub(crate) fn bit_of(content: &[u8], index: usize) -> Option<bool>
    requires { is_bit_string content.now ≡ true }
    ensures { result ≡ slice_get (bits_of content.now) index }
{
    if index as u128 >= len_of(content) {
        return None;
    }
    let bytes = &content[1..];
    Some(byte_bit(bytes[index / 8], (index % 8) as u8))
}

// The byte of these bits: the first one has this weight, each one after it half as much, and all other bits are zero.
fn weigh(weight: u8, bits: &[bool]) -> u8
    requires { weight ≤ 128 }
    ensures value { result ≡ weigh weight bits.now }
    ensures small { result ≤ 2 * weight - 1 }
{
    match bits {
        [] => 0,
        [bit, others @ ..] => {
            let other = weigh(weight / 2, others);
            if *bit { weight + other } else { other }
        }
    }
}

// Appends the bytes that hold these bits. The unused bits of the last byte are zero.
fn push_octets(bytes: &mut Vec<u8>, bits: &[bool]) -> Result<(), AllocError>
    ensures { OnOk result (bytes.new.items ≡ bytes.old.items ++ octets bits.now) }
{
    for chunk in bits.chunks(8) {
        bytes.push(weigh(128, chunk))?;
    }
    Ok(())
}

// The content of the bit string of these bits.
pub(crate) fn content_of(alloc: Global, bits: &[bool]) -> Result<Vec<u8>, AllocError>
    ensures { IfOk result (λ content. content.items ≡ bit_string_content bits.now) }
{
    let unused = (8 - bits.len() % 8) % 8;
    let mut content = Vec::new(alloc);
    content.push(unused as u8)?;
    push_octets(&mut content, bits)?;
    Ok(content)
}

// The bits without the zeros at the end.
pub(crate) fn without_zeros(bits: &[bool]) -> &[bool]
    ensures { result.now ≡ without_zeros bits.now }
{
    let mut used = bits;
    while let Some((last, others)) = used.split_last() {
        if *last {
            return used;
        }
        used = others;
    }
    used
}

// The bits of a content.
fn bits_of(alloc: Global, content: &[u8]) -> Result<Vec<bool>, AllocError>
    requires { is_bit_string content.now ≡ true }
    ensures { IfOk result (λ bits. bits.items ≡ bits_of content.now) }
{
    let mut bits = Vec::new(alloc);
    while let Some(bit) = bit_of(content, bits.len()) {
        bits.push(bit)?;
    }
    Ok(bits)
}

// Makes the bit with this number `value`. Bits that are added before it are zero.
fn put_bit(bits: &mut Vec<bool>, number: usize, value: bool) -> Result<(), AllocError>
    ensures { OnOk result ((k : ℕ) → slice_index_or bits.new.items k false
        ≡ (if k == number then value else slice_index_or bits.old.items k false)) }
{
    if number < bits.len() {
        bits[number] = value;
        return Ok(());
    }
    bits.resize(number, false)?;
    bits.push(value)?;
    Ok(())
}

// The bits of a content, where the one with this number is `value`.
pub(crate) fn with_bit(
    alloc: Global,
    content: &[u8],
    number: usize,
    value: bool,
) -> Result<Vec<bool>, AllocError>
    requires { is_bit_string content.now ≡ true }
    ensures { IfOk result (λ bits. (k : ℕ) → slice_index_or bits.items k false
        ≡ (if k == number then value else slice_index_or (bits_of content.now) k false)) }
{
    let mut bits = bits_of(alloc, content)?;
    put_bit(&mut bits, number, value)?;
    Ok(bits)
}

// Bits of which exactly those with these numbers are one.
pub(crate) fn bits_with(alloc: Global, numbers: &[usize]) -> Result<Vec<bool>, AllocError>
    ensures { IfOk result (λ bits. (k : ℕ) → slice_index_or bits.items k false
        ≡ list_any (λ number. k == number) numbers.now) }
{
    let mut bits = Vec::new(alloc);
    for number in numbers {
        put_bit(&mut bits, *number, true)?;
    }
    Ok(bits)
}
