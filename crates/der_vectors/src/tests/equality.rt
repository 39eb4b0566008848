//! Values that differ in one part each, which `==` distinguishes.

use crate::tests::checks::bytes;
use picky_asn1_der::application_tag::ApplicationTag;
use picky_asn1_der::asn1::{
    Asn1SequenceOf, Asn1SetOf, BitStringAsn1Container, BmpStringAsn1, ByteBuf, Bytes,
    ExplicitContextTag, ImplicitContextTag, Newtype, OctetStringAsn1Container, Tag, TagClass,
    Wrapper,
};
use picky_asn1_der::ser::{Defaulted, False, Header, Optional};
use picky_asn1_der::{Asn1DerError, Asn1RawDer, Choice4, NoneOf, OneOf};
use picky_der_core::Failure;
use std::io::ErrorKind;
use std::process::Abort;

// Each of these values is equal to itself, and differs from every one before it.
fn all_differ<T: PartialEq>(rt: &impl Abort, values: &[T]) {
    for (place, value) in values.iter().enumerate() {
        same!(rt; values.iter().position(|it| it == value), Some(place));
    }
}

// The same for the values that are made of these bytes.
fn all_differ_as<T: From<Vec<u8>> + PartialEq + Drop>(
    rt: &(impl Abort + AllocGlobal),
    rows: &[&str],
) {
    let mut values: Vec<T> = Vec::new(rt.alloc());
    for row in rows {
        values.push(T::from(bytes(rt, row))).expect(rt, "memory");
    }
    all_differ(rt, &values);
}

#[test]
fn bytes_differ(rt: HostRuntime) {
    let rows = ["", "00", "01", "00 00", "00 01", "01 00"];
    all_differ_as::<ByteBuf>(&rt, &rows);
    all_differ_as::<BmpStringAsn1>(&rt, &rows);
    all_differ_as::<Asn1RawDer>(&rt, &rows);
    all_differ(&rt, &[Bytes(&[]), Bytes(&[0]), Bytes(&[1]), Bytes(&[0, 0])]);
}

#[test]
fn lists_differ(rt: HostRuntime) {
    let rows = ["", "05", "06", "05 06", "06 05"];
    all_differ_as::<Asn1SequenceOf<u8>>(&rt, &rows);
    all_differ_as::<Asn1SetOf<u8>>(&rt, &rows);
}

#[test]
fn values_in_wrappers_differ(rt: HostRuntime) {
    all_differ(
        &rt,
        &[OctetStringAsn1Container(5u8), OctetStringAsn1Container(6)],
    );
    all_differ(
        &rt,
        &[BitStringAsn1Container(5u8), BitStringAsn1Container(6)],
    );
    all_differ(
        &rt,
        &[ExplicitContextTag::<u8, 0>(5), ExplicitContextTag(6)],
    );
    all_differ(
        &rt,
        &[ImplicitContextTag::<u8, 1>(5), ImplicitContextTag(6)],
    );
    all_differ(&rt, &[ApplicationTag::<u8, 10>(5), ApplicationTag(6)]);
    all_differ(&rt, &[(5u8, true, ()), (6, true, ()), (5, false, ())]);
}

#[test]
fn tags_differ(rt: HostRuntime) {
    all_differ(
        &rt,
        &[
            Tag::INTEGER,
            Tag::BIT_STRING,
            Tag::from(0x22),
            Tag::from(0x82),
        ],
    );
    all_differ(
        &rt,
        &[
            TagClass::Universal,
            TagClass::Application,
            TagClass::ContextSpecific,
            TagClass::Private,
        ],
    );
}

#[test]
fn wrappers_differ(rt: HostRuntime) {
    all_differ(
        &rt,
        &[
            Wrapper::OctetContainer,
            Wrapper::BitContainer,
            Wrapper::Explicit(0),
            Wrapper::Explicit(1),
            Wrapper::Implicit(0),
            Wrapper::Implicit(1),
            Wrapper::Application(0),
            Wrapper::Application(1),
            Wrapper::ImplicitList(0xA0),
            Wrapper::ImplicitList(0xA1),
        ],
    );
    all_differ(
        &rt,
        &[
            Newtype::Plain,
            Newtype::OctetContainer,
            Newtype::BitContainer,
            Newtype::Explicit(0),
            Newtype::Explicit(1),
            Newtype::Implicit(0),
            Newtype::Implicit(1),
        ],
    );
}

#[test]
fn errors_differ(rt: HostRuntime) {
    let errors = [
        Asn1DerError::TruncatedData,
        Asn1DerError::InvalidData,
        Asn1DerError::UnsupportedValue,
        Asn1DerError::UnsupportedType,
        Asn1DerError::InvalidSink,
        Asn1DerError::custom("a"),
        Asn1DerError::Other(ErrorKind::BrokenPipe),
        Asn1DerError::Other(ErrorKind::Interrupted),
        Asn1DerError::OutOfMemory,
    ];
    all_differ(&rt, &errors);
    all_differ(&rt, &errors.map(Failure::of));
    all_differ(
        &rt,
        &[
            Asn1DerError::custom("a"),
            Asn1DerError::custom("b"),
            Asn1DerError::custom(""),
        ],
    );
}

#[test]
fn headers_differ(rt: HostRuntime) {
    all_differ(
        &rt,
        &[
            Header::Tagged(Tag::INTEGER),
            Header::Tagged(Tag::BOOLEAN),
            Header::Application(1),
            Header::Application(2),
            Header::Raw,
        ],
    );
}

#[test]
fn members_and_alternatives_differ(rt: HostRuntime) {
    all_differ(
        &rt,
        &[Optional(None), Optional(Some(5u8)), Optional(Some(6))],
    );
    all_differ(
        &rt,
        &[Defaulted::<bool, False>::new(false), Defaulted::new(true)],
    );
    all_differ(
        &rt,
        &[
            OneOf::<u8, OneOf<bool, NoneOf>>::This(1),
            OneOf::This(0),
            OneOf::Other(OneOf::This(true)),
            OneOf::Other(OneOf::This(false)),
        ],
    );
    all_differ(
        &rt,
        &[
            Choice4::<u8, u8, u8, u8, NoneOf>::First(1),
            Choice4::First(2),
            Choice4::Second(1),
            Choice4::Third(1),
            Choice4::Fourth(1),
        ],
    );
}
