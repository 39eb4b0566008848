//! Values with constraints, in bytes that `openssl asn1parse -genconf` (3.0.19) writes.

use crate::tests::checks::{is_refused, read_back};
use der_examples::DeviceLabel;
use der_types::{InRange, PrintableString, WithSize};
use picky_asn1_der::Asn1DerError;
use picky_asn1_der::Asn1DerError::{InvalidData, UnsupportedValue};
use std::process::Abort;

// DE, 65536, 4006381 333931, help@example.org and +49 30 1234.
const LABEL: &str =
    "30 3A 13 02 44 45 02 03 01 00 00 12 0E 34 30 30 36 33 38 31 20 33 33 33 39 33 31 30 1F 16 10 68 65 6C 70 40 65 78 61 6D 70 6C 65 2E 6F 72 67 16 0B 2B 34 39 20 33 30 20 31 32 33 34";

#[test]
fn a_label_is_read_and_written(rt: HostRuntime) {
    let label: DeviceLabel = read_back(&rt, LABEL);
    same!(rt; label.country.get().as_str(), "DE");
    same!(rt; *label.serial.get(), 65536);
    same!(rt; label.article.as_str(), "4006381 333931");
    same!(rt; label.contacts.get().len(), 2);
}

fn is_no_label(rt: &(impl Abort + AllocGlobal), encoding: &str, error: Asn1DerError) {
    is_refused::<DeviceLabel>(rt, encoding, error);
}

// Countries of three letters and of one letter; serial numbers 65537 and -1; a letter in the article number; no
// contact.
#[test]
fn what_a_constraint_forbids_is_refused(rt: HostRuntime) {
    is_no_label(
        &rt,
        "30 10 13 03 44 45 55 02 01 07 12 01 30 30 03 16 01 61",
        InvalidData,
    );
    is_no_label(
        &rt,
        "30 0E 13 01 44 02 01 07 12 01 30 30 03 16 01 61",
        InvalidData,
    );
    is_no_label(
        &rt,
        "30 11 13 02 44 45 02 03 01 00 01 12 01 30 30 03 16 01 61",
        InvalidData,
    );
    is_no_label(
        &rt,
        "30 0F 13 02 44 45 02 01 FF 12 01 30 30 03 16 01 61",
        UnsupportedValue,
    );
    is_no_label(
        &rt,
        "30 0F 13 02 44 45 02 01 07 12 01 41 30 03 16 01 61",
        InvalidData,
    );
    is_no_label(
        &rt,
        "30 0C 13 02 44 45 02 01 07 12 01 30 30 00",
        InvalidData,
    );
    read_back::<DeviceLabel>(
        &rt,
        "30 11 13 02 44 45 02 03 00 FF FF 12 01 30 30 03 16 01 61",
    );
}

#[test]
fn a_value_is_made_within_its_bounds(rt: HostRuntime) {
    let two = PrintableString::from_str(rt.alloc(), "DE").expect(&rt, "a text");
    same!(rt; WithSize::<PrintableString, 2, 2>::new(two).is_some(), true);
    let three = PrintableString::from_str(rt.alloc(), "DEU").expect(&rt, "a text");
    same!(rt; WithSize::<PrintableString, 2, 2>::new(three).is_none(), true);
    same!(rt; InRange::<u32, 0, 65536>::new(65536).is_some(), true);
    same!(rt; InRange::<u32, 0, 65536>::new(65537).is_none(), true);
}
