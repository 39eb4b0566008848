//! Borrowed octet strings.
ghost use Rattle.std.specs.Prelude.{◌≡◌};

/// An octet string whose content is borrowed (X.690, 8.7). It can be written but not read; `ByteBuf` can be read too.
#[derive(Debug, Clone, Copy, PartialEq, Eq)]
pub struct Bytes<'a>(pub &'a [u8]);

impl<'a> From<&'a [u8]> for Bytes<'a> {
    ghost from_gives = { λ bytes octets. octets.0 ≡ bytes };

    fn from(bytes: &'a [u8]) -> Bytes<'a> {
        Bytes(bytes)
    }
}
