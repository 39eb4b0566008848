//! Members of later versions, in bytes that X.690 gives by hand (8.1 to 8.3, 8.8, 8.9 and 8.23).

use crate::tests::checks::{bytes, is_written};
use der_examples::Parcel;
use picky_asn1_der::{Asn1RawDer, LaterMembers, LaterMembersFrom, NoneOf, OneOf, from_der};
use std::process::Abort;

type Later = LaterMembers<OneOf<String, NoneOf>>;

// The members that these encodings are, or `None` if the first one has the tag of a text.
fn later(rt: &(impl Abort + AllocGlobal), rows: &[&str]) -> Option<Later> {
    let mut elements = Vec::new(rt.alloc());
    for row in rows {
        elements
            .push(Asn1RawDer::from(bytes(rt, row)))
            .expect(rt, "memory");
    }
    LaterMembers::new(elements)
}

#[test]
fn they_are_written_after_the_others(rt: HostRuntime) {
    let parcel = Parcel {
        number: 300,
        fragile: false,
        note: None,
        later: later(&rt, &["05 00", "0C 01 41"]).expect(&rt, "later members"),
    };
    is_written(&rt, &parcel, "30 0C 02 02 01 2C 01 01 00 05 00 0C 01 41");
}

#[test]
fn without_any_a_struct_ends_with_its_own(rt: HostRuntime) {
    let parcel = Parcel {
        number: 7,
        fragile: true,
        note: None,
        later: LaterMembers::none(rt.alloc()),
    };
    let wanted = bytes(&rt, "30 06 02 01 07 01 01 FF");
    same!(rt; from_der::<Parcel>(rt.alloc(), &wanted).is_ok_and(|it| it == parcel), true);
    is_written(&rt, &parcel, "30 06 02 01 07 01 01 FF");
}

#[test]
fn the_first_has_another_tag(rt: HostRuntime) {
    same!(rt; later(&rt, &["0C 01 41"]).is_none(), true);
    same!(rt; later(&rt, &["0C 01 41", "05 00"]).is_none(), true);
    same!(rt; later(&rt, &["2C 00"]).is_none(), true);
    same!(rt; later(&rt, &["05 00", "2C 00"]).is_some(), true);
    same!(rt; later(&rt, &[]).is_some(), true);
}

#[test]
fn none_are_numbered(rt: HostRuntime) {
    let later = LaterMembersFrom::<4>::none(rt.alloc());
    same!(rt; later.elements.len(), 0);
}
