//! Texts of wide characters.
ghost use Rattle.std.specs.Prelude.{◌≡◌};
ghost use Rattle.der_types.specs.declared.width.Width.TheVariants.{Two, Four};
ghost use Rattle.der_types.specs.CharacterStrings.{is_string_content, is_bmp, is_universal};

// Whether the bytes are characters of two bytes each (X.690, 8.23.8).
pub(crate) fn is_bmp(content: &[u8]) -> bool
    ensures { result ≡ is_string_content Two is_bmp content.now }
{
    let mut rest = content;
    while let [high, low, after @ ..] = rest {
        if !is_bmp_character(u32::from(*high) * 256 + u32::from(*low)) {
            return false;
        }
        rest = after;
    }
    rest.is_empty()
}

// Whether the bytes are characters of four bytes each (X.690, 8.23.7).
pub(crate) fn is_universal(content: &[u8]) -> bool
    ensures { result ≡ is_string_content Four is_universal content.now }
{
    let mut rest = content;
    while let [first, second, third, fourth, after @ ..] = rest {
        if !is_universal_character(u32::from_be_bytes([*first, *second, *third, *fourth])) {
            return false;
        }
        rest = after;
    }
    rest.is_empty()
}

// Whether the number is that of a character of the Basic Multilingual Plane, and no surrogate.
fn is_bmp_character(code: u32) -> bool
    ensures { result ≡ is_bmp code }
{
    matches!(code, 0..=0xD7FF | 0xE000..=0xFFFF)
}

// Whether the number is that of a character of Unicode.
fn is_universal_character(code: u32) -> bool
    ensures { result ≡ is_universal code }
{
    matches!(code, 0..=0xD7FF | 0xE000..=0x10FFFF)
}
