//! Types whose values are made of short contents without a vector.
ghost use Rattle.std.specs.Prelude.{◌≡◌, ℕ, List, IfSome};

use std::alloc::Global;

/// A type whose values can be made from a borrowed content.
pub trait ShortContent: Sized {
    // The content of a value.
    ghost content: { Self → List ℕ };

    /// The value with this content, or `None` if there is none. Nothing is allocated.
    fn of_short(alloc: Global, bytes: &[u8]) -> Option<Self>
        ensures { IfSome result (λ it. content it ≡ bytes.now) };
}
