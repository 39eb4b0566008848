//! What a newtype has around its value.
ghost use Rattle.picky_der_core.specs.OpenWrappers.{wrapper_of};
ghost use Rattle.std.specs.Prelude.{◌≡◌};

use super::Wrapper;

/// The wrapper around the one value of a newtype, or none.
#[derive(Debug, Clone, Copy, PartialEq, Eq)]
pub enum Newtype {
    /// Nothing.
    Plain,

    /// An octet string that holds the encoding.
    OctetContainer,

    /// A bit string that holds the encoding.
    BitContainer,

    /// The explicit context tag with this number.
    Explicit(u8),

    /// The implicit context tag with this number.
    Implicit(u8),
}

impl Newtype {
    /// The wrapper, or `None` for `Plain`.
    pub fn wrapper(self) -> Option<Wrapper>
        ensures { result ≡ wrapper_of self }
    {
        match self {
            Newtype::Plain => None,
            Newtype::OctetContainer => Some(Wrapper::OctetContainer),
            Newtype::BitContainer => Some(Wrapper::BitContainer),
            Newtype::Explicit(number) => Some(Wrapper::Explicit(number)),
            Newtype::Implicit(number) => Some(Wrapper::Implicit(number)),
        }
    }
}
