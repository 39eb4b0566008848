//! Elements that are kept as they are.

use crate::tests::checks::bytes;
use picky_asn1_der::Asn1RawDer;
use std::collections::HashSet;
use std::process::Abort;

fn raw(rt: &(impl Abort + AllocGlobal), row: &str) -> Asn1RawDer {
    Asn1RawDer::from(bytes(rt, row))
}

fn is_shown(rt: &(impl Abort + AllocGlobal), row: &str, wanted: &str) {
    let element = raw(rt, row);
    let text = format!(in rt.alloc(); "{element:?}").expect(rt, "memory");
    same!(*rt; text.as_str(), wanted);
}

#[test]
fn a_raw_element_is_shown_in_hexadecimal(rt: HostRuntime) {
    is_shown(&rt, "02 01 07", "RawDer(0x020107)");
    is_shown(&rt, "0C 02 C3 A9", "RawDer(0x0C02C3A9)");
    is_shown(&rt, "", "RawDer(0x)");
    same!(rt; Asn1RawDer::NAME, "Asn1RawDer");
}

#[test]
fn raw_elements_are_compared_by_their_bytes(rt: HostRuntime) {
    let five = raw(&rt, "02 01 05");
    let six = raw(&rt, "02 01 06");
    same!(rt; five < six, true);
    same!(rt; six < raw(&rt, "05 00"), true);
    let again = five.clone().expect(&rt, "memory");
    same!(rt; five == again, true);
    let mut seen = HashSet::new(rt.alloc());
    same!(rt; seen.insert(again).is_ok(), true);
    same!(rt; seen.contains(&five), true);
    same!(rt; seen.contains(&six), false);
}
