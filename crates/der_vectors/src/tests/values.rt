//! Values one after another, in a slice and in a reader.

use crate::tests::checks::text;
use der_examples::{next_text, number_and_text};
use der_fixtures::{FailingReader, SlowReader};
use picky_asn1_der::Asn1DerError::{InvalidData, Other, TruncatedData, UnsupportedValue};
use picky_asn1_der::asn1::TaggedBytes;
use picky_asn1_der::misc::Watched;
use picky_asn1_der::{Asn1DerError, next_from_bytes, next_from_reader};
use std::io::ErrorKind;
use std::process::Abort;

#[test]
fn a_slice_has_one_value_after_another(rt: HostRuntime) {
    let alloc = rt.alloc();
    let bytes: &[u8] = &[0x02, 0x02, 0x00, 0x80, 0x05, 0x00, 0x02, 0x01];
    same!(rt; next_from_bytes::<u8>(alloc, bytes), Ok((128, 4)));
    let second: &[u8] = &[0x05, 0x00, 0x02, 0x01];
    same!(rt; next_from_bytes::<()>(alloc, second), Ok(((), 2)));
    same!(rt; next_from_bytes::<u8>(alloc, second), Err(InvalidData));
    let third: &[u8] = &[0x02, 0x01];
    same!(rt; next_from_bytes::<u8>(alloc, third), Err(TruncatedData));
    same!(rt; next_from_bytes::<u8>(alloc, &[]), Err(TruncatedData));
}

#[test]
fn a_reader_ends_after_its_last_value(rt: HostRuntime) {
    let alloc = rt.alloc();
    let bytes: &[u8] = &[0x02, 0x01, 0x07, 0x02, 0x01, 0x08];
    let mut reader = Watched::new(SlowReader::new(bytes));
    same!(rt; next_from_reader::<u8, _>(alloc, &mut reader, 3), Ok(Some(7)));
    same!(rt; reader.get_ref().given(), 3);
    same!(rt; next_from_reader::<u8, _>(alloc, &mut reader, 3), Ok(Some(8)));
    same!(rt; next_from_reader::<u8, _>(alloc, &mut reader, 3), Ok(None));
    same!(rt; next_from_reader::<u8, _>(alloc, &mut reader, 3), Ok(None));
}

#[test]
fn a_value_that_is_cut_short_is_no_end(rt: HostRuntime) {
    let alloc = rt.alloc();
    let bytes: &[u8] = &[0x02, 0x01, 0x07, 0x02, 0x01];
    let mut reader = Watched::new(SlowReader::new(bytes));
    same!(rt; next_from_reader::<u8, _>(alloc, &mut reader, 3), Ok(Some(7)));
    same!(rt; next_from_reader::<u8, _>(alloc, &mut reader, 3), Err(TruncatedData));
    let mut reader = Watched::new(SlowReader::new(bytes));
    same!(rt; next_from_reader::<u8, _>(alloc, &mut reader, 2), Err(TruncatedData));
    same!(rt; reader.get_ref().given(), 2);
}

#[test]
fn no_byte_is_drawn_under_a_limit_of_0(rt: HostRuntime) {
    let alloc = rt.alloc();
    let bytes: &[u8] = &[0x02, 0x01, 0x07];
    let mut reader = Watched::new(SlowReader::new(bytes));
    same!(rt; next_from_reader::<u8, _>(alloc, &mut reader, 0), Err(TruncatedData));
    same!(rt; reader.get_ref().given(), 0);
    let mut reader: &[u8] = &[];
    same!(rt; next_from_reader::<u8, _>(alloc, &mut reader, 0), Err(TruncatedData));
}

// No value of this type is ever read, so that no byte is consumed.
#[test]
fn what_is_never_read_takes_no_byte(rt: HostRuntime) {
    let alloc = rt.alloc();
    let bytes: &[u8] = &[0x02, 0x01, 0x07];
    let mut reader = Watched::new(SlowReader::new(bytes));
    same!(rt; next_from_reader::<TaggedBytes<0x1F>, _>(alloc, &mut reader, 3), Err(UnsupportedValue));
    same!(rt; reader.get_ref().given(), 0);
}

// The first call of the reader fails, and then the value is read.
fn faults_with(rt: &(impl Abort + AllocGlobal), kind: ErrorKind, error: Asn1DerError) {
    let mut reader = Watched::new(FailingReader::new(&[0x02, 0x01, 0x07], 1, kind));
    same!(*rt; next_from_reader::<u8, _>(rt.alloc(), &mut reader, 3), Err(error));
    same!(*rt; next_from_reader::<u8, _>(rt.alloc(), &mut reader, 3), Ok(Some(7)));
}

// An I/O error instead of the first byte isn't the end of the input, whatever its kind.
#[test]
fn a_fault_is_no_end(rt: HostRuntime) {
    faults_with(&rt, ErrorKind::UnexpectedEof, TruncatedData);
    faults_with(&rt, ErrorKind::BrokenPipe, Other(ErrorKind::BrokenPipe));
}

#[test]
fn values_of_two_types_stand_after_each_other(rt: HostRuntime) {
    let alloc = rt.alloc();
    let bytes: &[u8] = &[0x02, 0x01, 0x07, 0x0C, 0x02, 0x68, 0x69];
    same!(rt; number_and_text(alloc, bytes), Ok((7, text(&rt, "hi"))));
    let mut reader = bytes;
    same!(rt; next_text(alloc, &mut reader), Err(InvalidData));
    let mut reader: &[u8] = &[];
    same!(rt; next_text(alloc, &mut reader), Ok(None));
}
