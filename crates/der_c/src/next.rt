//! A walk over elements without memory.
ghost use Rattle.der_c.specs.Elements.{IsStepInC};

use crate::code::{PICKY_DER_END, PICKY_DER_NO_PLACE, PICKY_DER_NO_ROOM, PICKY_DER_OK, rule_code};
use crate::element::{PickyDerElement, element_in_c};
use der_show::{Next, Place, next_element};

/// A place in a walk over elements. A walk begins with zeros.
#[repr(C)]
#[derive(Clone, Copy)]
pub struct PickyDerPlace {
    /// The index of the first byte of the next element, or how many bytes there are.
    pub offset: usize,
    /// How many elements are around it.
    pub depth: usize,
}

/// Goes over the element at a place, which it writes to `element`, moves the place to the next one, and returns
/// PICKY_DER_OK. The next one is in this element if it is constructed, else after it. The caller keeps the place and
/// the `ends` of the elements around it, and calls again.
///
/// Returns PICKY_DER_END after the last element: all bytes are elements in DER. Returns the code of the rule that the
/// element at the place breaks, PICKY_DER_NO_ROOM if more elements are around a place than there are `ends`, and
/// PICKY_DER_NO_PLACE if no walk over these bytes comes to the place. Then place, ends and element are as they were. It
/// takes no memory.
#[unsafe(no_mangle)]
pub extern "C" fn picky_der_next(
    bytes: &[u8],
    place: &mut PickyDerPlace,
    ends: &mut [usize],
    element: &mut PickyDerElement,
) -> u32
    ensures { IsStepInC bytes.now place.old ends.old place.new ends.new element.old element.new result }
{
    let at = Place {
        offset: place.offset,
        depth: place.depth,
    };
    let (next, after) = next_element(bytes, at, ends);
    *place = PickyDerPlace {
        offset: after.offset,
        depth: after.depth,
    };
    match next {
        Next::Element(found) => {
            *element = element_in_c(found);
            PICKY_DER_OK
        }
        Next::Broken(rule) => rule_code(rule),
        Next::End => PICKY_DER_END,
        Next::NoRoom => PICKY_DER_NO_ROOM,
        Next::NoPlace => PICKY_DER_NO_PLACE,
    }
}
