//! Members of later versions with elements in them, in bytes that X.690 gives by hand (8.1 to 8.3, 8.8, 8.9 and 8.23).

use crate::tests::checks::bytes;
use der_elements::{AnyElement, LaterElements, LaterElementsFrom};
use picky_asn1_der::{Asn1RawDer, NoneOf, OneOf};
use std::process::Abort;

fn elements(rt: &(impl Abort + AllocGlobal), rows: &[&str]) -> Vec<AnyElement> {
    let mut found = Vec::new(rt.alloc());
    for row in rows {
        let element = AnyElement::from_element(Asn1RawDer::from(bytes(rt, row)));
        found
            .push(element.expect(rt, "an element"))
            .expect(rt, "memory");
    }
    found
}

// Whether these may come after an optional text.
fn are_after_text(rt: &(impl Abort + AllocGlobal), rows: &[&str]) -> bool {
    LaterElements::<OneOf<String, NoneOf>>::new(elements(rt, rows)).is_some()
}

// Whether these may come after four members with automatic tags.
fn are_from_four(rt: &(impl Abort + AllocGlobal), rows: &[&str]) -> bool {
    LaterElementsFrom::<4>::new(elements(rt, rows)).is_some()
}

#[test]
fn the_first_has_another_tag(rt: HostRuntime) {
    same!(rt; are_after_text(&rt, &["0C 01 41"]), false);
    same!(rt; are_after_text(&rt, &["A0 02 05 00", "0C 01 41"]), true);
    same!(rt; are_after_text(&rt, &[]), true);
    same!(rt; LaterElements::<NoneOf>::none(rt.alloc()).elements.len(), 0);
}

#[test]
fn automatic_tags_ascend(rt: HostRuntime) {
    same!(rt; are_from_four(&rt, &["84 00", "A6 02 05 00"]), true);
    same!(rt; are_from_four(&rt, &["A6 02 05 00", "84 00"]), false);
    same!(rt; are_from_four(&rt, &["83 00"]), false);
    same!(rt; are_from_four(&rt, &[]), true);
    same!(rt; LaterElementsFrom::<4>::none(rt.alloc()).elements.len(), 0);
}
