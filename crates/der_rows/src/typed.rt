//! Rows of bytes with a type.

use crate::answers::{RowBytes, Trial, Way};
use crate::calls::shown;
use crate::notation::bytes_in;
use crate::sweeps::Sweep;
use crate::{copies, growths, plain, sweeps};
use der_x509::{Certificate, CertificateList};
use picky_asn1_der::from_bytes;
use std::alloc::{AllocError, Global};

/// The result of a row of words for what to do, bytes in brackets, and ` as ` with a type.
pub(crate) fn answer(alloc: Global, row: &str) -> Result<String, AllocError> {
    match split_row(alloc, row) {
        Some((words, bytes, name)) => answer_as(alloc, words, bytes, name),
        None => String::from_str(alloc, "unknown row"),
    }
}

// The result of these words for bytes and a type.
fn answer_as(alloc: Global, words: &str, bytes: Vec<u8>, name: &str) -> Result<String, AllocError> {
    match words {
        "copy" => growths::answer(alloc, copies::copy(alloc, name, &bytes)),
        "signed" => signed(alloc, name, &bytes),
        _ => read_or_swept(alloc, words, bytes, name),
    }
}

fn read_or_swept(
    alloc: Global,
    words: &str,
    bytes: Vec<u8>,
    name: &str,
) -> Result<String, AllocError> {
    let (words, trial) = match words.strip_prefix("quick ") {
        Some(words) => (words, Trial::None),
        None => (words, Trial::Hostile),
    };
    if let Some(way) = Way::named(words) {
        return plain::answer(alloc, name, &RowBytes { bytes, way, trial });
    }
    match Sweep::named(words) {
        Some(sweep) => sweeps::answer(alloc, name, sweep, &bytes),
        None => String::from_str(alloc, "unknown words"),
    }
}

// The bytes that the signature signs, in the certificate or the list that these bytes encode.
fn signed(alloc: Global, name: &str, bytes: &[u8]) -> Result<String, AllocError> {
    if name == "CertificateList" {
        return match from_bytes::<CertificateList>(alloc, bytes) {
            Ok(list) => shown(alloc, &list.signed_bytes(alloc)),
            Err(error) => format!(in alloc; "refused {error}"),
        };
    }
    match from_bytes::<Certificate>(alloc, bytes) {
        Ok(certificate) => shown(alloc, &certificate.signed_bytes(alloc)),
        Err(error) => format!(in alloc; "refused {error}"),
    }
}

fn split_row(alloc: Global, row: &str) -> Option<(&str, Vec<u8>, &str)> {
    let (words, rest) = row.split_once(" [")?;
    let (bytes, name) = rest.split_once("] as ")?;
    Some((words, bytes_in(alloc, bytes)?, name))
}
