//! The element at the front of bytes.
ghost use Rattle.der_c.specs.Elements.{IsFrontInC};

use crate::code::{PICKY_DER_OK, rule_code};
use crate::element::{PickyDerElement, element_in_c};
use der_show::{Element, Front, front_of};

/// Writes the element at the front of the bytes to `element`, and returns PICKY_DER_OK. Its tag, its length and its
/// content are in DER, but the elements in it aren't looked at. Bytes may follow it.
///
/// Else it returns the code of the rule that is broken, and `element` is as it was. It takes no memory.
#[unsafe(no_mangle)]
pub extern "C" fn picky_der_front(bytes: &[u8], element: &mut PickyDerElement) -> u32
    ensures { IsFrontInC bytes.now element.old element.new result }
{
    match front_of(bytes) {
        Front::Element(header) => {
            *element = element_in_c(Element {
                offset: 0,
                depth: 0,
                tag: header.tag,
                header_len: header.header_len,
                content_len: header.content_len,
            });
            PICKY_DER_OK
        }
        Front::Broken(rule) => rule_code(rule),
    }
}
