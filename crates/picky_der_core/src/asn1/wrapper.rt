//! The wrappers around a value.
ghost use Rattle.std.specs.Prelude.{◌≡◌, true, false};
ghost use Rattle.picky_der_core.specs.Wrapper.{wrapper_tag, counts_unused_bits, keeps_header, HasTagNumber};

use super::Tag;

/// A wrapper of one element around an encoding.
#[derive(Debug, Clone, Copy, PartialEq, Eq)]
pub enum Wrapper {
    /// An octet string that holds an encoding.
    OctetContainer,

    /// A bit string that holds an encoding, after a byte that counts no unused bits.
    BitContainer,

    /// The explicit context tag with this number.
    Explicit(u8),

    /// The implicit context tag with this number.
    Implicit(u8),

    /// The explicit application tag with this number.
    Application(u8),

    /// This identifier byte, in place of a list's own tag.
    ImplicitList(u8),
}

impl Wrapper {
    /// Whether the tag number is at most 30, and a tag in place of a list's own is constructed.
    pub fn has_tag_number(self) -> bool
        ensures yes { result ≡ true → HasTagNumber self }
        ensures no { result ≡ false → HasTagNumber self → ⊥ }
    {
        match self {
            Wrapper::OctetContainer | Wrapper::BitContainer => true,
            Wrapper::Explicit(number) | Wrapper::Implicit(number) | Wrapper::Application(number) =>
                { number <= Tag::MAX_NUMBER }
            Wrapper::ImplicitList(tag) => {
                let tag = Tag::from(tag);
                tag.number() <= Tag::MAX_NUMBER && tag.is_constructed()
            }
        }
    }

    /// Its tag (X.690, 8.6.2, 8.7 and 8.14).
    pub fn tag(self) -> Tag
        requires { HasTagNumber self }
        ensures { result ≡ wrapper_tag self }
    {
        match self {
            Wrapper::OctetContainer => Tag::OCTET_STRING,
            Wrapper::BitContainer => Tag::BIT_STRING,
            Wrapper::Explicit(number) => Tag::context_specific_constructed(number),
            Wrapper::Implicit(number) => Tag::context_specific_primitive(number),
            Wrapper::Application(number) => Tag::application_constructed(number),
            Wrapper::ImplicitList(tag) => Tag::from(tag),
        }
    }

    /// Whether a byte before the value counts unused bits, of which there are none (X.690, 8.6.2).
    pub fn counts_unused_bits(self) -> bool
        ensures { result ≡ counts_unused_bits self }
    {
        self == Wrapper::BitContainer
    }

    /// Whether a plain value keeps its header in it: not in an `Implicit` or an `ImplicitList`.
    pub fn keeps_header(self) -> bool
        ensures { result ≡ keeps_header self }
    {
        match self {
            Wrapper::Implicit(_) | Wrapper::ImplicitList(_) => false,
            Wrapper::OctetContainer
            | Wrapper::BitContainer
            | Wrapper::Explicit(_)
            | Wrapper::Application(_) => true,
        }
    }
}
