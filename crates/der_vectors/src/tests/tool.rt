//! The lines of the tool.

use der_fixtures::{FailingReader, FailingWriter, WriterFault};
use der_tool_lib::{kind_word, run};
use picky_asn1_der::Asn1DerError;
use picky_asn1_der::Asn1DerError::{Other, TruncatedData};
use picky_asn1_der::misc::{BufSink, Watched};
use std::io::ErrorKind;
use std::process::Abort;

// These lines get these ones.
fn runs_as(rt: &(impl Abort + AllocGlobal), lines: &[u8], wanted: &[u8]) {
    let mut rest = lines;
    let mut text = Vec::new(rt.alloc());
    let mut output = BufSink::new(&mut text);
    same!(*rt; run(rt.alloc(), &mut rest, &mut output), Ok(()));
    drop(output);
    same!(*rt; text.as_slice(), wanted);
}

#[test]
fn each_line_gets_a_line(rt: HostRuntime) {
    runs_as(&rt, b"", b"");
    runs_as(&rt, b"\n", b"refused Line\n");
    runs_as(&rt, b"len 1\r", b"refused Line\n");
    runs_as(&rt, b"len 290\nlen 10\n", b"820122\n0a\n");
    runs_as(&rt, b"len \xFF\nlen 7\n", b"refused Line\n07\n");
    runs_as(&rt, b"len 7\n\xFF", b"07\nrefused Line\n");
    runs_as(&rt, b"len 1\xC3\n\xA9\n", b"refused Line\nrefused Line\n");
    runs_as(&rt, b"len 7\0\n", b"refused Line\n");
    runs_as(&rt, b"len 18446744073709551615", b"88ffffffffffffffff\n");
    runs_as(&rt, b"len 0\n\nlen 128", b"00\nrefused Line\n8180\n");
}

// The fourteenth call of the reader fails, after a whole line.
fn stops_with(rt: &(impl Abort + AllocGlobal), kind: ErrorKind, error: Asn1DerError) {
    let mut input = Watched::new(FailingReader::new(b"len 290\nlen 1", 14, kind));
    let mut text = Vec::new(rt.alloc());
    let mut output = BufSink::new(&mut text);
    same!(*rt; run(rt.alloc(), &mut input, &mut output), Err(error));
    drop(output);
    same!(*rt; text.as_slice(), b"820122\n".as_slice());
}

#[test]
fn stops_where_the_reader_fails(rt: HostRuntime) {
    stops_with(&rt, ErrorKind::TimedOut, Other(ErrorKind::TimedOut));
    stops_with(&rt, ErrorKind::UnexpectedEof, TruncatedData);
}

#[test]
fn stops_where_the_writer_fails(rt: HostRuntime) {
    let alloc = rt.alloc();
    let mut input: &[u8] = b"len 290\nlen 10\nlen 11\n";
    let refusal = WriterFault::Error(ErrorKind::BrokenPipe);
    let mut output = Watched::new(FailingWriter::new(alloc, 9, refusal));
    let outcome = run(alloc, &mut input, &mut output);
    same!(rt; outcome, Err(Other(ErrorKind::BrokenPipe)));
    same!(rt; output.get_ref().taken(), b"820122\n0".as_slice());
    same!(rt; input, b"len 11\n".as_slice());
}

fn has_word(rt: &impl Abort, error: Asn1DerError, word: &str) {
    same!(*rt; kind_word(error), word);
}

#[test]
fn each_error_has_its_word(rt: HostRuntime) {
    has_word(&rt, Asn1DerError::TruncatedData, "TruncatedData");
    has_word(&rt, Asn1DerError::InvalidData, "InvalidData");
    has_word(&rt, Asn1DerError::UnsupportedValue, "UnsupportedValue");
    has_word(&rt, Asn1DerError::UnsupportedType, "UnsupportedType");
    has_word(&rt, Asn1DerError::InvalidSink, "InvalidSink");
    has_word(&rt, Asn1DerError::custom("a"), "Message");
    has_word(&rt, Asn1DerError::Other(ErrorKind::BrokenPipe), "Other");
    has_word(&rt, Asn1DerError::OutOfMemory, "OutOfMemory");
}
