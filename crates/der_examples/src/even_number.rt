//! A type with the values of another type that pass a test.
mod derived;

ghost use Rattle.std.specs.Prelude.{◌≡◌, ◌%◌, ◌==◌, true};

/// A number that is even, as an INTEGER. An odd number is `InvalidData`.
// asn1: test is_even, clone
#[derive(Debug, Drop, PartialEq, Eq)]
pub struct EvenNumber {
    number: u32,
    ghost even: { (number % 2 == 0) ≡ true },
}

// Whether a number is even.
fn is_even(number: u32) -> bool
    ensures { result ≡ (number % 2 == 0) }
{
    number % 2 == 0
}
