//! The types of `der_cms`.

use crate::messages::trials::{Task, result_as};
use der_cms::{
    AuthEnvelopedData, ContentInfo, DigestedData, EncryptedData, EnvelopedData, SignedData,
    SigningTime,
};
use std::alloc::{AllocError, Global};

/// The result of bytes of the type with this name.
pub(crate) fn result_of(
    alloc: Global,
    task: Task,
    name: &str,
    bytes: &[u8],
) -> Result<String, AllocError> {
    match name {
        "AuthEnvelopedData" => result_as::<AuthEnvelopedData>(alloc, task, bytes),
        "ContentInfo" => result_as::<ContentInfo>(alloc, task, bytes),
        "DigestedData" => result_as::<DigestedData>(alloc, task, bytes),
        "EncryptedData" => result_as::<EncryptedData>(alloc, task, bytes),
        "EnvelopedData" => result_as::<EnvelopedData>(alloc, task, bytes),
        "SignedData" => result_as::<SignedData>(alloc, task, bytes),
        "SigningTime" => result_as::<SigningTime>(alloc, task, bytes),
        _ => String::from_str(alloc, "no type"),
    }
}
