//! All elements of bytes.
ghost use Rattle.std.specs.Prelude.{◌≡◌, map, IfOk};
ghost use Rattle.der_c.specs.Elements.{element_in_c, filled, AreElementsInC};

use crate::code::{PICKY_DER_NO_MEMORY, PICKY_DER_OK, rule_code};
use crate::element::{PickyDerElement, element_in_c};
use der_show::{Element, outline_of};
use std::alloc::{AllocError, Global};

/// Writes the elements of the bytes to `elements`, at any depth and each before those in it, as many as there is room
/// for, and to `count` how many there are. No room is needed to count them, or to check that the bytes are DER.
///
/// Returns PICKY_DER_OK if all bytes are elements in DER, and writes how many bytes there are to `position`. Returns
/// the code of the first rule that is broken, and writes the offset of the element that breaks it; then the elements
/// before it are written and counted. Returns PICKY_DER_NO_MEMORY if an allocation failed, and then nothing but zeros
/// to `count` and `position` is written.
#[unsafe(no_mangle)]
pub extern "C" fn picky_der_elements(
    alloc: Global,
    bytes: &[u8],
    elements: &mut [PickyDerElement],
    count: &mut usize,
    position: &mut usize,
) -> u32
    ensures { AreElementsInC bytes.now elements.old elements.new count.new position.new result }
{
    *count = 0;
    *position = 0;
    let Ok(outline) = outline_of(alloc, bytes) else {
        return PICKY_DER_NO_MEMORY;
    };
    let Ok(listed) = elements_in_c(alloc, &outline.elements) else {
        return PICKY_DER_NO_MEMORY;
    };
    let number = listed.len();
    fill(elements, &listed);
    *count = number;
    match outline.complaint {
        None => {
            *position = bytes.len();
            PICKY_DER_OK
        }
        Some(complaint) => {
            *position = complaint.offset;
            rule_code(complaint.rule)
        }
    }
}

// The elements as callers see them.
fn elements_in_c(alloc: Global, elements: &[Element]) -> Result<Vec<PickyDerElement>, AllocError>
    ensures { IfOk result (λ all. all.items ≡ map element_in_c elements.now) }
{
    elements.iter().map(|it| element_in_c(*it)).collect(alloc)
}

// Writes as many as there is room for, from the first place on.
fn fill(room: &mut [PickyDerElement], all: &[PickyDerElement])
    ensures { room.new ≡ filled room.old all.now }
{
    let count = room.len().min(all.len());
    room[..count].copy_from_slice(&all[..count]);
}
