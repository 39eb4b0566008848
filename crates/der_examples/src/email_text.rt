//! A type with the texts that pass a test.
mod derived;

ghost use Rattle.std.specs.Prelude.{◌≡◌, ◌==◌, true};
ghost use Rattle.std.specs.List.{list_any};

use der_types::Ia5String;

/// A text with an `@` in it, as an IA5String. Every other text is `InvalidData`.
// asn1: test has_at, clone
#[derive(Debug, Drop, PartialEq, Eq)]
pub struct EmailText {
    text: Ia5String,
    ghost has_at: { list_any (λ byte. byte == 0x40) text.content.items ≡ true },
}

// Whether a text has an `@` in it.
fn has_at(text: &Ia5String) -> bool
    ensures { result ≡ list_any (λ byte. byte == 0x40) text.now.content.items }
{
    text.as_bytes().contains(&b'@')
}
