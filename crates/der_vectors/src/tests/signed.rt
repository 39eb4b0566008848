//! Signed integers. Their contents are from Python's `int.to_bytes(length, "big", signed=True)` at the least length.

mod offset;

use crate::tests::checks::{is_encoded, is_refused};
use offset::Offset;
use picky_asn1_der::Asn1DerError::{InvalidData, TruncatedData, UnsupportedValue};
use picky_asn1_der::asn1::{Asn1SequenceOf, ExplicitContextTag0, ImplicitContextTag1};

#[test]
fn signed_integers_have_the_fewest_bytes(rt: HostRuntime) {
    is_encoded(&rt, 127i8, "02 01 7F");
    is_encoded(&rt, -128i8, "02 01 80");
    is_encoded(&rt, 128i16, "02 02 00 80");
    is_encoded(&rt, -129i16, "02 02 FF 7F");
    is_encoded(&rt, i32::MIN, "02 04 80 00 00 00");
    is_encoded(&rt, i64::MAX, "02 08 7F FF FF FF FF FF FF FF");
    is_encoded(
        &rt,
        i128::MIN,
        "02 10 80 00 00 00 00 00 00 00 00 00 00 00 00 00 00 00",
    );
    is_encoded(
        &rt,
        i128::MAX,
        "02 10 7F FF FF FF FF FF FF FF FF FF FF FF FF FF FF FF",
    );
}

#[test]
fn signed_integers_stand_in_other_values(rt: HostRuntime) {
    is_encoded(&rt, ExplicitContextTag0::from(128i16), "A0 04 02 02 00 80");
    is_encoded(&rt, ExplicitContextTag0::from(-128i32), "A0 03 02 01 80");
    is_encoded(&rt, ImplicitContextTag1::from(127i8), "81 01 7F");
    is_encoded(&rt, ImplicitContextTag1::from(-129i64), "81 02 FF 7F");
    let numbers = Vec::from_slice(rt.alloc(), &[127i64, 128, -128, -129]).expect(&rt, "memory");
    let list = Asn1SequenceOf(numbers);
    is_encoded(&rt, list, "30 0E 02 01 7F 02 02 00 80 02 01 80 02 02 FF 7F");
}

#[test]
fn signed_integers_have_defaults(rt: HostRuntime) {
    is_encoded(&rt, Offset::new(-1, 7), "30 00");
    is_encoded(&rt, Offset::new(1, 7), "30 03 02 01 01");
    is_encoded(&rt, Offset::new(-1, -129), "30 06 A0 04 02 02 FF 7F");
    is_refused::<Offset>(&rt, "30 03 02 01 FF", InvalidData);
}

#[test]
fn other_contents_are_refused(rt: HostRuntime) {
    is_refused::<i8>(&rt, "02 00", InvalidData);
    is_refused::<i8>(&rt, "02 02 00 7F", InvalidData);
    is_refused::<i128>(&rt, "02 02 FF 80", InvalidData);
    is_refused::<i8>(&rt, "0A 01 00", InvalidData);
    is_refused::<ImplicitContextTag1<i8>>(&rt, "81 02 FF 80", InvalidData);
    is_refused::<i8>(&rt, "02 02 00 80", UnsupportedValue);
    is_refused::<i8>(&rt, "02 02 FF 7F", UnsupportedValue);
    is_refused::<i64>(&rt, "02 09 00 80 00 00 00 00 00 00 00", UnsupportedValue);
    let past = "02 11 00 80 00 00 00 00 00 00 00 00 00 00 00 00 00 00 00";
    is_refused::<i128>(&rt, past, UnsupportedValue);
    is_refused::<i16>(&rt, "02 02 FF", TruncatedData);
}
