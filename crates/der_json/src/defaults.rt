//! Members with their defaults (X.690, 11.5).

use der_path::first_element;
use der_schema::{DefaultValue, Presence};
use picky_der_core::integer::{is_integer, number_of};

// Whether the encoding of a member is that of its default: its innermost content is.
pub(crate) fn has_default(presence: Presence, encoding: &[u8]) -> bool {
    let (Presence::Default(value) | Presence::DefaultOf(value)) = presence else {
        return false;
    };
    let mut inside = encoding;
    while let Some(element) = first_element(inside) {
        if !element.tag.is_constructed() {
            return is_content_of(value, element.content);
        }
        inside = element.content;
    }
    false
}

fn is_content_of(value: DefaultValue, content: &[u8]) -> bool {
    match value {
        DefaultValue::True => matches!(content, [0xFF]),
        DefaultValue::False => matches!(content, [0x00]),
        DefaultValue::Number(number) => {
            if !is_integer(content) {
                return false;
            }
            let written: Option<i128> = number_of(content);
            written == Some(number)
        }
    }
}
