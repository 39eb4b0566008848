//! The types of `der_x509`.

use crate::messages::trials::{Task, result_as};
use der_x509::{Certificate, CertificateList, KeyUsage, SubjectPublicKeyInfo};
use std::alloc::{AllocError, Global};

/// The result of bytes of the type with this name.
pub(crate) fn result_of(
    alloc: Global,
    task: Task,
    name: &str,
    bytes: &[u8],
) -> Result<String, AllocError> {
    match name {
        "Certificate" => result_as::<Certificate>(alloc, task, bytes),
        "CertificateList" => result_as::<CertificateList>(alloc, task, bytes),
        "KeyUsage" => result_as::<KeyUsage>(alloc, task, bytes),
        "SubjectPublicKeyInfo" => result_as::<SubjectPublicKeyInfo>(alloc, task, bytes),
        _ => String::from_str(alloc, "no type"),
    }
}
