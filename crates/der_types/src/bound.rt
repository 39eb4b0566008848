//! Bounds of numbers, as types: a type with a ghost field can't have a parameter with a sign.
ghost use Rattle.std.specs.Prelude.{◌≡◌, ℤ, pos, neg_ℤ};

/// A bound of numbers, as a type.
pub trait Bound {
    // The number.
    ghost bound: { ℤ };

    /// Returns the number.
    fn bound() -> i128
        ensures { result ≡ bound };
}

/// The bound `N`.
pub struct Plus<const N: u64>;

/// The bound `-N`.
pub struct Minus<const N: u64>;

impl<const N: u64> Bound for Plus<N> {
    ghost bound = { pos N };

    fn bound() -> i128 {
        i128::from(N)
    }
}

impl<const N: u64> Bound for Minus<N> {
    ghost bound = { neg_ℤ (pos N) };

    fn bound() -> i128 {
        -i128::from(N)
    }
}
