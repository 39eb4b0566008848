//! Lengths alone.

use picky_asn1_der::Asn1DerError::{InvalidData, TruncatedData, UnsupportedValue};
use picky_asn1_der::misc::SliceSink;
use picky_asn1_der::{Asn1DerError, Length};
use std::process::Abort;

// The length is written as these bytes, and read from them.
fn is_written_as(rt: &(impl Abort + AllocGlobal), len: usize, bytes: &[u8]) {
    let mut room = [0; 9];
    let mut sink = SliceSink::new(&mut room);
    same!(*rt; Length::serialize(len, &mut sink), Ok(bytes.len()));
    drop(sink);
    same!(*rt; room.starts_with(bytes), true);
    same!(*rt; Length::encoded_len(len), bytes.len());
    let mut rest = bytes;
    same!(*rt; Length::deserialized(&mut rest), Ok(len));
    same!(*rt; rest.is_empty(), true);
}

#[test]
fn lengths_take_the_fewest_bytes(rt: HostRuntime) {
    is_written_as(&rt, 10, &[0x0A]);
    is_written_as(&rt, 127, &[0x7F]);
    is_written_as(&rt, 128, &[0x81, 0x80]);
    is_written_as(&rt, 129, &[0x81, 0x81]);
    is_written_as(&rt, 290, &[0x82, 0x01, 0x22]);
    is_written_as(
        &rt,
        usize::MAX,
        &[0x88, 0xFF, 0xFF, 0xFF, 0xFF, 0xFF, 0xFF, 0xFF, 0xFF],
    );
}

fn is_refused(rt: &impl Abort, bytes: &[u8], error: Asn1DerError) {
    let mut rest = bytes;
    same!(*rt; Length::deserialized(&mut rest), Err(error));
}

#[test]
fn every_other_form_is_refused(rt: HostRuntime) {
    is_refused(&rt, &[0x80], InvalidData);
    is_refused(&rt, &[0x81, 0x05], InvalidData);
    is_refused(&rt, &[0x82, 0x00, 0x80], InvalidData);
    is_refused(&rt, &[0x89], UnsupportedValue);
    is_refused(&rt, &[0xFF], UnsupportedValue);
    is_refused(&rt, &[0x82, 0x01], TruncatedData);
    is_refused(&rt, &[0x82, 0x00], TruncatedData);
    is_refused(&rt, &[], TruncatedData);
}

#[test]
fn the_bytes_after_the_first_are_counted(rt: HostRuntime) {
    same!(rt; Length::long_count(0x80), Err(InvalidData));
    same!(rt; Length::long_count(0x82), Ok(2));
    same!(rt; Length::long_count(0x89), Err(UnsupportedValue));
    same!(rt; Length::shortest(2, 290), Ok(290));
    same!(rt; Length::shortest(2, 128), Err(InvalidData));
}
