//! Calls of one deserializer, one after another.

use crate::devices::Device;
use crate::members;
use picky_asn1_der::Deserializer;
use picky_asn1_der::misc::{ReadExt, Watched};
use std::alloc::{AllocError, Global};
use std::fmt::Debug;

/// The bytes of a row, how they are read, and the calls, separated by `, `.
#[derive(Drop)]
pub(crate) struct Calls<'a> {
    pub(crate) bytes: Vec<u8>,

    /// The reader that returns the bytes one per call. If there is none, they are read from a slice.
    pub(crate) device: Option<Device>,

    pub(crate) names: &'a str,
}

/// What the calls return. Each result has how many bytes are consumed by then, and for a reader how many were read in
/// all.
pub(crate) fn answer(alloc: Global, calls: &Calls<'_>) -> Result<String, AllocError> {
    match calls.device {
        None => {
            let mut de = Deserializer::new_from_bytes(alloc, &calls.bytes);
            answers(alloc, &mut de, calls.names)
        }
        Some(device) => {
            let reader = Watched::new(device.fault.reader(&calls.bytes));
            let mut de = Deserializer::new_from_reader(alloc, reader, device.limit);
            let answers = answers(alloc, &mut de, calls.names)?;
            let drawn = de.into_reader().into_inner().given();
            format!(in alloc; "{answers}, {drawn} drawn")
        }
    }
}

fn answers<R: ReadExt>(
    alloc: Global,
    de: &mut Deserializer<R>,
    names: &str,
) -> Result<String, AllocError> {
    Ok(answer_each!(alloc; name in names, ", ", {
        let answer = members::answer(alloc, de, name)?;
        let taken = de.taken();
        format!(in alloc; "{answer} at {taken}")
    }))
}

/// The result of a call, as text.
pub(crate) fn shown<T: Debug>(alloc: Global, outcome: &T) -> Result<String, AllocError> {
    format!(in alloc; "{outcome:?}")
}
