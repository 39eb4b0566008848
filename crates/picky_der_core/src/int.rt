//! The integer types of Rust, and their numbers as a sign and bits.
ghost use Rattle.std.specs.Prelude.{◌≡◌, ◌<◌, ◌^◌, ℤ, Bool, true, false, IfSome, OnSome, IfNone};
ghost use Rattle.std.specs.Int.{complement_if};
ghost use Rattle.picky_der_core.specs.Integer.{bits_of};

/// A whole number of at most 128 bits and a sign: `bits`, or `-(bits + 1)` if it is negative.
#[derive(Debug, Clone, Copy, PartialEq, Eq)]
pub struct SignedBits {
    /// Whether the number is negative.
    pub is_negative: bool,
    /// The bits of the number. If it is negative, each bit is inverted.
    pub bits: u128,
}

/// An integer type of 8 to 128 bits, signed or unsigned.
pub trait Int: Sized + Copy {
    // The number of a value, and which numbers the type has.
    ghost number: { Self → ℤ };

    ghost fits: { ℤ → Bool };

    /// The number as a sign and bits.
    fn into_bits(self) -> SignedBits
        ensures is { complement_if result.is_negative result.bits ≡ number self }
        ensures fits { fits (number self) ≡ true };

    /// The number with this sign and these bits, or `None` if the type doesn't have it.
    fn from_bits(bits: SignedBits) -> Option<Self>
        ensures some { IfSome result (λ it. number it ≡ complement_if bits.is_negative bits.bits) }
        ensures fits { OnSome result (fits (complement_if bits.is_negative bits.bits) ≡ true) }
        ensures none { IfNone result (fits (complement_if bits.is_negative bits.bits) ≡ false) };

    // No number has more bits.
    ghost narrow: { (z : ℤ) → fits z ≡ true → bits_of z < 2 ^ 128 };
}
