//! The types of `der_versions`.

use crate::messages::trials::{Task, result_as};
use der_versions::{Lease1, Lease2, Lease3, Parcel1, Parcel2};
use std::alloc::{AllocError, Global};

/// The result of bytes of the type with this name.
pub(crate) fn result_of(
    alloc: Global,
    task: Task,
    name: &str,
    bytes: &[u8],
) -> Result<String, AllocError> {
    match name {
        "Lease1" => result_as::<Lease1>(alloc, task, bytes),
        "Lease2" => result_as::<Lease2>(alloc, task, bytes),
        "Lease3" => result_as::<Lease3>(alloc, task, bytes),
        "Parcel1" => result_as::<Parcel1>(alloc, task, bytes),
        "Parcel2" => result_as::<Parcel2>(alloc, task, bytes),
        _ => String::from_str(alloc, "no type"),
    }
}
