//! The constants of tags, and the types of bytes under them.

use picky_asn1_der::asn1::{
    BitStringAsn1, BmpStringAsn1, GeneralStringAsn1, GeneralizedTimeAsn1, Ia5StringAsn1,
    IntegerAsn1, NumericStringAsn1, ObjectIdentifierAsn1, PrintableStringAsn1, Tag, TagClass,
    TaggedBytes, UtcTimeAsn1, Utf8StringAsn1,
};
use picky_asn1_der::to_bytes;
use std::process::Abort;

fn is(rt: &impl Abort, tag: Tag, byte: u8) {
    same!(*rt; tag.inner(), byte);
}

#[test]
fn tags_have_their_bytes(rt: HostRuntime) {
    is(&rt, Tag::BOOLEAN, 0x01);
    is(&rt, Tag::INTEGER, 0x02);
    is(&rt, Tag::BIT_STRING, 0x03);
    is(&rt, Tag::OCTET_STRING, 0x04);
    is(&rt, Tag::NULL, 0x05);
    is(&rt, Tag::OID, 0x06);
    is(&rt, Tag::ENUMERATED, 0x0A);
    is(&rt, Tag::UTF8_STRING, 0x0C);
    is(&rt, Tag::RELATIVE_OID, 0x0D);
    is(&rt, Tag::NUMERIC_STRING, 0x12);
    is(&rt, Tag::PRINTABLE_STRING, 0x13);
    is(&rt, Tag::TELETEX_STRING, 0x14);
    is(&rt, Tag::IA5_STRING, 0x16);
    is(&rt, Tag::UTC_TIME, 0x17);
    is(&rt, Tag::GENERALIZED_TIME, 0x18);
    is(&rt, Tag::VISIBLE_STRING, 0x1A);
    is(&rt, Tag::GENERAL_STRING, 0x1B);
    is(&rt, Tag::UNIVERSAL_STRING, 0x1C);
    is(&rt, Tag::BMP_STRING, 0x1E);
    is(&rt, Tag::SEQUENCE, 0x30);
    is(&rt, Tag::SET, 0x31);
    same!(rt; Tag::MAX_NUMBER, 30);
}

fn is_of(rt: &impl Abort, tag: Tag, class: TagClass, number: u8) {
    same!(*rt; tag.class(), class);
    same!(*rt; tag.number(), number);
    same!(*rt; tag.is_universal(), class == TagClass::Universal);
    same!(*rt; tag.is_application(), class == TagClass::Application);
    same!(*rt; tag.is_context_specific(), class == TagClass::ContextSpecific);
    same!(*rt; tag.is_primitive(), !tag.is_constructed());
}

#[test]
fn a_tag_tells_its_class(rt: HostRuntime) {
    is_of(&rt, Tag::from(0x02), TagClass::Universal, 2);
    is_of(&rt, Tag::from(0x6A), TagClass::Application, 10);
    is_of(&rt, Tag::from(0x81), TagClass::ContextSpecific, 1);
    is_of(&rt, Tag::from(0xFE), TagClass::Private, 30);
}

// An empty value of this type is written as this byte, the tag, and a length of 0.
fn has_tag<const TAG: u8>(rt: &(impl Abort + AllocGlobal), none: TaggedBytes<TAG>, byte: u8) {
    let mut encoding = [0; 2];
    same!(*rt; to_bytes(rt.alloc(), &none, &mut encoding), Ok(2));
    same!(*rt; encoding, [byte, 0]);
}

#[test]
fn aliases_have_their_tags(rt: HostRuntime) {
    has_tag(&rt, IntegerAsn1::from(Vec::new(rt.alloc())), 0x02);
    has_tag(&rt, BitStringAsn1::from(Vec::new(rt.alloc())), 0x03);
    has_tag(&rt, ObjectIdentifierAsn1::from(Vec::new(rt.alloc())), 0x06);
    has_tag(&rt, Utf8StringAsn1::from(Vec::new(rt.alloc())), 0x0C);
    has_tag(&rt, NumericStringAsn1::from(Vec::new(rt.alloc())), 0x12);
    has_tag(&rt, PrintableStringAsn1::from(Vec::new(rt.alloc())), 0x13);
    has_tag(&rt, Ia5StringAsn1::from(Vec::new(rt.alloc())), 0x16);
    has_tag(&rt, UtcTimeAsn1::from(Vec::new(rt.alloc())), 0x17);
    has_tag(&rt, GeneralizedTimeAsn1::from(Vec::new(rt.alloc())), 0x18);
    has_tag(&rt, GeneralStringAsn1::from(Vec::new(rt.alloc())), 0x1B);
    has_tag(&rt, BmpStringAsn1::from(Vec::new(rt.alloc())), 0x1E);
}
