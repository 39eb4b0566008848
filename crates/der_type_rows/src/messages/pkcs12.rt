//! The types of `der_pkcs12`.

use crate::messages::trials::{Task, result_as};
use der_pkcs12::{
    AuthenticatedSafe, CertBag, KeyBag, MacData, PFX, Pkcs8ShroudedKeyBag, Pkcs12PbeParams,
    SafeBag, SafeContents, SecretBag,
};
use std::alloc::{AllocError, Global};

/// The result of bytes of the type with this name.
pub(crate) fn result_of(
    alloc: Global,
    task: Task,
    name: &str,
    bytes: &[u8],
) -> Result<String, AllocError> {
    match name {
        "AuthenticatedSafe" => result_as::<AuthenticatedSafe>(alloc, task, bytes),
        "CertBag" => result_as::<CertBag>(alloc, task, bytes),
        "KeyBag" => result_as::<KeyBag>(alloc, task, bytes),
        "MacData" => result_as::<MacData>(alloc, task, bytes),
        "PFX" => result_as::<PFX>(alloc, task, bytes),
        "Pkcs12PbeParams" => result_as::<Pkcs12PbeParams>(alloc, task, bytes),
        "Pkcs8ShroudedKeyBag" => result_as::<Pkcs8ShroudedKeyBag>(alloc, task, bytes),
        "SafeBag" => result_as::<SafeBag>(alloc, task, bytes),
        "SafeContents" => result_as::<SafeContents>(alloc, task, bytes),
        "SecretBag" => result_as::<SecretBag>(alloc, task, bytes),
        _ => String::from_str(alloc, "no type"),
    }
}
