//! What the entry calls return one after another, and what they leave in a slice and in a reader or writer.

use crate::tests::checks::bytes;
use der_examples::{Gust, NumberOrFlag, RawAlgorithm};
use der_fixtures::{SlowReader, SlowWriter};
use der_types::ObjectIdentifier;
use picky_asn1_der::Asn1DerError::{InvalidData, InvalidSink, TruncatedData};
use picky_asn1_der::asn1::{ByteBuf, Bytes, PrintableStringAsn1};
use picky_asn1_der::misc::{PeekableReader, ReadExt, Watched};
use picky_asn1_der::round_trip::{read_back, reads_back, written_back};
use picky_asn1_der::{
    Asn1RawDer, Length, Result as DerResult, Serializer, de, from_bytes, from_reader,
    from_reader_with_max_len, next_from_reader, to_writer,
};
use std::alloc::Global;
use std::process::Abort;

#[test]
fn a_value_goes_there_and_back(rt: HostRuntime) {
    same!(rt; read_back(rt.alloc(), &128u8), Ok(128));
    let again = written_back::<u8>(rt.alloc(), &[0x02, 0x02, 0x00, 0x80, 0x05, 0x00]);
    same!(rt; again, Ok(bytes(&rt, "02 02 00 80")));
    same!(rt; written_back::<u8>(rt.alloc(), &[0x02, 0x02, 0x00]).err(), Some(TruncatedData));
}

#[test]
fn a_value_reads_back_or_does_not(rt: HostRuntime) {
    let whole = Asn1RawDer::from(bytes(&rt, "02 01 05"));
    let cut = Asn1RawDer::from(bytes(&rt, "02 02 05"));
    same!(rt; reads_back(rt.alloc(), &128u8), Ok(true));
    same!(rt; reads_back(rt.alloc(), &whole), Ok(true));
    same!(rt; reads_back(rt.alloc(), &cut), Ok(false));
}

// An algorithm with this element as its parameters.
fn algorithm(rt: &(impl Abort + AllocGlobal), element: &str) -> RawAlgorithm {
    let algorithm = ObjectIdentifier::from_str(rt.alloc(), "1.2.840.10045.2.1");
    RawAlgorithm {
        algorithm: algorithm.expect(rt, "an object identifier"),
        parameters: Some(Asn1RawDer::from(bytes(rt, element))),
    }
}

#[test]
fn a_struct_or_a_choice_reads_back_or_does_not(rt: HostRuntime) {
    let alloc = rt.alloc();
    let gust = Gust {
        speed: 7,
        notes: None,
    };
    same!(rt; reads_back(alloc, &gust), Ok(true));
    same!(rt; reads_back(alloc, &NumberOrFlag::Number(5)), Ok(true));
    same!(rt; reads_back(alloc, &algorithm(&rt, "05 00")), Ok(true));
    same!(rt; reads_back(alloc, &algorithm(&rt, "05 01")), Ok(false));
}

#[test]
fn a_writer_takes_one_value_after_another(rt: HostRuntime) {
    let mut writer = Watched::new(SlowWriter::new(rt.alloc()));
    same!(rt; to_writer(rt.alloc(), &Bytes(&[0xAA]), &mut writer), Ok(3));
    same!(rt; to_writer(rt.alloc(), &(), &mut writer), Ok(2));
    same!(rt; writer.get_ref().taken(), [0x04, 0x01, 0xAA, 0x05, 0x00].as_slice());
}

// The bytes of the next text, which is read with this limit.
fn next_printable(
    alloc: Global,
    reader: &mut PeekableReader<&[u8]>,
    limit: usize,
) -> DerResult<Vec<u8>> {
    let text: PrintableStringAsn1 = from_reader_with_max_len(alloc, reader, limit)?;
    Ok(text.0)
}

#[test]
fn a_reader_gives_one_value_after_another(rt: HostRuntime) {
    let alloc = rt.alloc();
    let bytes: &[u8] = &[0x0C, 0x02, 0xC3, 0xA9, 0x13, 0x01, 0x41, 0x05, 0x00];
    let mut reader = PeekableReader::new(bytes);
    same!(rt; reader.peek_one().ok(), Some(0x0C));
    same!(rt; from_reader(alloc, &mut reader), Ok('é'));
    same!(rt; next_printable(alloc, &mut reader, 3).is_ok_and(|text| text.as_slice() == b"A".as_slice()), true);
    same!(rt; reader.pos(), 7);
    same!(rt; from_reader(alloc, &mut reader), Ok(()));
    same!(rt; reader.read_next().ok(), Some(None));
}

#[test]
fn limits_and_lengths_are_public(rt: HostRuntime) {
    same!(rt; de::DEFAULT_MAX_LEN, 10240);
    same!(rt; Length::encoded_len(290), 3);
}

#[test]
fn a_slice_is_filled_by_each_call(rt: HostRuntime) {
    let mut room = [9; 6];
    let mut ser = Serializer::new_to_bytes(rt.alloc(), &mut room);
    same!(rt; ser.serialize_u8(7), Ok(3));
    same!(rt; ser.serialize_unit(), Ok(2));
    same!(rt; ser.serialize_unit(), Err(InvalidSink));
    drop(ser);
    same!(rt; room, [0x02, 0x01, 0x07, 0x05, 0x00, 0x05]);
}

#[test]
fn a_vector_grows_with_each_call(rt: HostRuntime) {
    let mut out = Vec::new(rt.alloc());
    let mut ser = Serializer::new_to_byte_buf(rt.alloc(), &mut out);
    same!(rt; ser.serialize_u8(7), Ok(3));
    same!(rt; ser.serialize_unit(), Ok(2));
    drop(ser);
    same!(rt; out.as_slice(), [0x02, 0x01, 0x07, 0x05, 0x00].as_slice());
}

// This header, with zero bytes up to this length.
fn with_zeros(rt: &(impl Abort + AllocGlobal), header: &[u8], len: usize) -> Vec<u8> {
    let mut bytes = Vec::from_slice(rt.alloc(), header).expect(rt, "memory");
    bytes.resize(len, 0).expect(rt, "memory");
    bytes
}

#[test]
fn from_reader_reads_10240_bytes_at_most(rt: HostRuntime) {
    let whole = with_zeros(&rt, &[0x04, 0x82, 0x27, 0xFC], 10240);
    let mut reader = Watched::new(SlowReader::new(&whole));
    let octets = from_reader::<ByteBuf, _>(rt.alloc(), &mut reader);
    same!(rt; octets.is_ok_and(|it| whole.ends_with(&it.0) && it.0.len() == 10236), true);
    same!(rt; reader.get_ref().given(), 10240);
}

#[test]
fn from_reader_reads_nothing_of_a_content_that_is_longer(rt: HostRuntime) {
    let past = with_zeros(&rt, &[0x04, 0x82, 0x27, 0xFD], 10241);
    let mut reader = Watched::new(SlowReader::new(&past));
    let refused = from_reader::<ByteBuf, _>(rt.alloc(), &mut reader);
    same!(rt; refused.err(), Some(TruncatedData));
    same!(rt; reader.get_ref().given(), 4);
    let octets = from_bytes::<ByteBuf>(rt.alloc(), &past);
    same!(rt; octets.is_ok_and(|it| it.0.len() == 10237), true);
}

// A wrong tag, a wrong tag after a member, and a member that isn't the shortest.
const WRONG_TAG: &[u8] = &[0x05, 0x00, 0x05, 0x00];

const WRONG_SECOND_TAG: &[u8] = &[0x30, 0x06, 0x02, 0x01, 0x07, 0x05, 0x00, 0x05];

const NOT_THE_SHORTEST: &[u8] = &[0x30, 0x06, 0x02, 0x02, 0x00, 0x7F, 0x05, 0x00];

// So many bytes are read, up to the one that shows the error.
fn is_refused_after(rt: &(impl Abort + AllocGlobal), bytes: &[u8], given: usize) {
    let mut reader = Watched::new(SlowReader::new(bytes));
    let refused = from_reader::<(u8, bool), _>(rt.alloc(), &mut reader);
    same!(*rt; refused.err(), Some(InvalidData));
    same!(*rt; reader.get_ref().given(), given);
}

#[test]
fn no_byte_is_read_after_one_that_shows_a_refusal(rt: HostRuntime) {
    is_refused_after(&rt, WRONG_TAG, 1);
    is_refused_after(&rt, WRONG_SECOND_TAG, 6);
    is_refused_after(&rt, NOT_THE_SHORTEST, 6);
}

// The same for the next value.
fn next_is_refused_after(rt: &(impl Abort + AllocGlobal), bytes: &[u8], given: usize) {
    let mut reader = Watched::new(SlowReader::new(bytes));
    let refused = next_from_reader::<(u8, bool), _>(rt.alloc(), &mut reader, 8);
    same!(*rt; refused.err(), Some(InvalidData));
    same!(*rt; reader.get_ref().given(), given);
}

#[test]
fn no_byte_of_the_next_value_is_read_after_it_either(rt: HostRuntime) {
    next_is_refused_after(&rt, WRONG_TAG, 1);
    next_is_refused_after(&rt, WRONG_SECOND_TAG, 6);
    next_is_refused_after(&rt, NOT_THE_SHORTEST, 6);
}
