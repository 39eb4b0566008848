//! Messages of other programs.

mod algorithms;
mod cms;
mod kerberos;
mod pkcs12;
mod pkix;
mod signed;
mod status;
pub(crate) mod trials;
mod versions;
mod x509;

use der_fixtures::bytes_of;
use std::alloc::{AllocError, Global};
use trials::Task;

/// The result of bytes of a type, whose name is preceded by the name of its crate.
pub(crate) fn result_of(alloc: Global, task: Task, row: &str) -> Result<String, AllocError> {
    let Some((name, text)) = row.split_once(" ") else {
        return String::from_str(alloc, "no type");
    };
    match bytes_of(alloc, text) {
        Ok(bytes) => of_type(alloc, task, name, &bytes),
        Err(_) => String::from_str(alloc, "no bytes"),
    }
}

/// The bytes that are signed in a message of a type.
pub(crate) fn signed_part(alloc: Global, row: &str) -> Result<String, AllocError> {
    let Some((name, text)) = row.split_once(" ") else {
        return String::from_str(alloc, "no type");
    };
    match bytes_of(alloc, text) {
        Ok(bytes) => signed::part_of(alloc, name, &bytes),
        Err(_) => String::from_str(alloc, "no bytes"),
    }
}

fn of_type(alloc: Global, task: Task, name: &str, bytes: &[u8]) -> Result<String, AllocError> {
    let (module, name) = name.split_once("::").unwrap_or((name, ""));
    match module {
        "der_algorithms" => algorithms::result_of(alloc, task, name, bytes),
        "der_cms" => cms::result_of(alloc, task, name, bytes),
        "der_kerberos" => kerberos::result_of(alloc, task, name, bytes),
        "der_pkcs12" => pkcs12::result_of(alloc, task, name, bytes),
        "der_pkix" => pkix::result_of(alloc, task, name, bytes),
        "der_status" => status::result_of(alloc, task, name, bytes),
        "der_versions" => versions::result_of(alloc, task, name, bytes),
        "der_x509" => x509::result_of(alloc, task, name, bytes),
        _ => String::from_str(alloc, "no crate"),
    }
}
