//! A type with the numbers of a range that begins below zero.
mod derived;

ghost use Rattle.std.specs.Prelude.{◌≡◌, ◌&&◌, int_le, negsuc, pos, true};

/// A temperature of the air in degrees, `INTEGER (-60..60)`. Every other number is `InvalidData`.
// asn1: test is_usual, clone
#[derive(Debug, Drop, PartialEq, Eq)]
pub struct Temperature {
    degrees: i8,
    ghost usual: { (int_le (negsuc 59) degrees && int_le degrees (pos 60)) ≡ true },
}

// Whether it is from -60 to 60.
fn is_usual(degrees: i8) -> bool
    ensures { result ≡ (int_le (negsuc 59) degrees && int_le degrees (pos 60)) }
{
    -60 <= degrees && degrees <= 60
}
