//! Sets of different members, tags instead of a type's own, and values with their encodings.
//!
//! The record is the example of X.690's annex A, with its members in the order of their tags.

use crate::tests::checks::{is_refused, read_back};
use der_examples::PersonnelRecord;
use der_types::{Encoded, ImplicitPrimitive, Integer, ObjectIdentifier, names};
use picky_asn1_der::Asn1DerError::{InvalidData, UnsupportedValue};
use picky_asn1_der::asn1::SetOfAsGiven;

// The record in DER, and once with the title before the number, as the standard lists the members.
const RECORD: &str =
    "60 81 85 61 10 1A 04 4A 6F 68 6E 1A 01 50 1A 05 53 6D 69 74 68 42 01 33 A0 0A 1A 08 44 69 72 65 63 74 6F 72 A1 0A 43 08 31 39 37 31 30 39 31 37 A2 12 61 10 1A 04 4D 61 72 79 1A 01 54 1A 05 53 6D 69 74 68 A3 42 31 1F 61 11 1A 05 52 61 6C 70 68 1A 01 54 1A 05 53 6D 69 74 68 A0 0A 43 08 31 39 35 37 31 31 31 31 31 1F 61 11 1A 05 53 75 73 61 6E 1A 01 42 1A 05 4A 6F 6E 65 73 A0 0A 43 08 31 39 35 39 30 37 31 37";

const IN_ANOTHER_ORDER: &str =
    "60 81 85 61 10 1A 04 4A 6F 68 6E 1A 01 50 1A 05 53 6D 69 74 68 A0 0A 1A 08 44 69 72 65 63 74 6F 72 42 01 33 A1 0A 43 08 31 39 37 31 30 39 31 37 A2 12 61 10 1A 04 4D 61 72 79 1A 01 54 1A 05 53 6D 69 74 68 A3 42 31 1F 61 11 1A 05 52 61 6C 70 68 1A 01 54 1A 05 53 6D 69 74 68 A0 0A 43 08 31 39 35 37 31 31 31 31 31 1F 61 11 1A 05 53 75 73 61 6E 1A 01 42 1A 05 4A 6F 6E 65 73 A0 0A 43 08 31 39 35 39 30 37 31 37";

#[test]
fn a_set_has_its_members_in_the_order_of_their_tags(rt: HostRuntime) {
    let record: PersonnelRecord = read_back(&rt, RECORD);
    same!(rt; record.0.name.0.given_name.as_str(), "John");
    same!(rt; record.0.number.0.to_int::<u8>(), Some(51));
    same!(rt; record.0.date_of_hire.0.0.as_str(), "19710917");
    is_refused::<PersonnelRecord>(&rt, IN_ANOTHER_ORDER, InvalidData);
}

#[test]
fn primitive_values_stand_under_other_tags(rt: HostRuntime) {
    let private: ImplicitPrimitive<Integer, 0xC3> = read_back(&rt, "C3 02 FF 7F");
    same!(rt; private.0.to_int::<i16>(), Some(-129));
    is_refused::<ImplicitPrimitive<Integer, 0xC3>>(&rt, "C3 02 00 7F", InvalidData);
    is_refused::<ImplicitPrimitive<Integer, 0x43>>(&rt, "C3 01 07", InvalidData);
    is_refused::<ImplicitPrimitive<Integer, 0x63>>(&rt, "63 01 07", UnsupportedValue);
    is_refused::<ImplicitPrimitive<Integer, 0x5F>>(&rt, "5F 01 07", UnsupportedValue);
}

#[test]
fn a_list_as_given_is_in_any_order(rt: HostRuntime) {
    let given: SetOfAsGiven<u8> = read_back(&rt, "31 06 02 01 05 02 01 03");
    same!(rt; given.0.as_slice(), &[5, 3][..]);
}

#[test]
fn an_encoded_value_is_one_of_its_type(rt: HostRuntime) {
    let curve: Encoded<ObjectIdentifier> = read_back(&rt, "06 08 2A 86 48 CE 3D 03 01 07");
    same!(rt; curve.value().content(), names::SECP256R1);
    same!(rt; curve.encoding().0.len(), 10);
    is_refused::<Encoded<ObjectIdentifier>>(&rt, "06 02 80 01", InvalidData);
    is_refused::<Encoded<ObjectIdentifier>>(&rt, "05 00", InvalidData);
}
