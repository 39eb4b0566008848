//! How errors print, and which errors a failing reader or writer leads to.

use picky_asn1_der::Asn1DerError;
use std::io::{Error, ErrorKind};
use std::process::Abort;

fn is_shown(rt: &(impl Abort + AllocGlobal), error: Asn1DerError, wanted: &str) {
    let text = format!(in rt.alloc(); "{error}").expect(rt, "memory");
    same!(*rt; text.as_str(), wanted);
}

#[test]
fn an_error_is_shown_by_its_name(rt: HostRuntime) {
    is_shown(&rt, Asn1DerError::TruncatedData, "TruncatedData");
    is_shown(&rt, Asn1DerError::InvalidData, "InvalidData");
    is_shown(&rt, Asn1DerError::UnsupportedValue, "UnsupportedValue");
    is_shown(&rt, Asn1DerError::UnsupportedType, "UnsupportedType");
    is_shown(&rt, Asn1DerError::InvalidSink, "InvalidSink");
    is_shown(
        &rt,
        Asn1DerError::custom("a \"b\" c"),
        "Message(\"a \"b\" c\")",
    );
    is_shown(
        &rt,
        Asn1DerError::Other(ErrorKind::BrokenPipe),
        "Other(BrokenPipe)",
    );
    is_shown(&rt, Asn1DerError::OutOfMemory, "OutOfMemory");
}

fn becomes(rt: &impl Abort, kind: ErrorKind, error: Asn1DerError) {
    same!(*rt; Asn1DerError::from(Error::from(kind)), error);
}

#[test]
fn errors_of_devices_keep_what_they_tell(rt: HostRuntime) {
    becomes(&rt, ErrorKind::UnexpectedEof, Asn1DerError::TruncatedData);
    becomes(&rt, ErrorKind::WriteZero, Asn1DerError::InvalidSink);
    becomes(&rt, ErrorKind::OutOfMemory, Asn1DerError::OutOfMemory);
    becomes(
        &rt,
        ErrorKind::Interrupted,
        Asn1DerError::Other(ErrorKind::Interrupted),
    );
}
